//! The shadow hart, word by word and block by block. What it does is the move of the shadow in each
//! run that hart and memory show.
#![tactic(auto)]

mod calls;
mod moves;
#[cfg(test)]
mod tests;
mod walking;

pub use calls::calls_are_performed;
pub use moves::advance;
pub use walking::{Walked, walk};
