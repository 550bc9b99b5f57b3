//! Driving a rewritten program: a runner makes the moves of a repeated pattern over a store and two
//! sinks, up to the first that ends the run. A report tells its counts, and a trace what each move tells.
#![tactic(auto)]

mod advancing;
mod driving;
mod lines;
mod reporting;
mod schedule;
#[cfg(test)]
mod tests;
mod tracing;
mod uses;

pub use driving::drive;
pub use lines::LineFault;
pub use reporting::{counts, run};
pub use schedule::Schedule;
pub use tracing::trace;
