//! Blocks of files by small keys: each name has a number.
#![tactic(auto)]

mod names;
mod small_spot;

pub use names::Names;
pub use small_spot::SmallSpot;

#[cfg(test)]
mod tests;
