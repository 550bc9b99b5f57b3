//! A program that runs by itself: one hart in the Plain view, its memory and its descriptors, over a
//! store and two sinks.
#![tactic(auto)]

mod answering;
mod calls;
mod ending;
mod opening;
mod reading;
mod running;
#[cfg(test)]
mod tests;
mod writing;

pub use ending::Ending;
pub use running::run;
