//! A cache run again from the lines of a trace.
#![tactic(auto)]

mod block_lists;
mod course;
mod keyed_lists;
mod replay;
mod totals;
mod traces;

pub use replay::Replay;
pub use totals::Totals;
pub use traces::{ReplayFault, replay_trace};

#[cfg(test)]
mod tests;
