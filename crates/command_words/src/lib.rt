//! The command line: a command, its options, and the words that these act on.
#![tactic(auto)]

mod arguments;
mod command;
mod number;
mod options;
mod pattern;
mod reading;
mod request;
mod setting;
#[cfg(test)]
mod tests;

pub use arguments::Arguments;
pub use command::Command;
pub use options::Options;
pub use request::{Request, read_words};
