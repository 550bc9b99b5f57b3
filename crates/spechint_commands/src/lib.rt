//! The commands of `spechint`, over a store of files and two sinks.
#![tactic(auto)]

mod top;

pub use command_status::Status;
pub use top::spechint;
