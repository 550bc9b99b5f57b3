//! A cache of file blocks that takes hints: blocks that were fetched, a queue of fetches that were
//! hinted, and at most one block that is waited for.
#![tactic(auto)]

mod blocks;
mod cache;
mod finish;
mod queue;
mod read_blocks;
#[cfg(test)]
mod tests;

pub use cache::{Cache, Need};
pub use finish::Finished;
pub use read_blocks::block_numbers;
