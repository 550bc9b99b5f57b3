//! The shadow text: a block of 16 words for each instruction of a program's text, in which a
//! shadow does what the instruction does, but loads and stores through copies of the memory,
//! appends calls to the hint log, and parks where the program would trap. The helpers that the
//! blocks jump to are put together here too.
#![tactic(auto)]

mod helper_code;
mod laying;
mod places;
mod shadow;
mod shapes;
#[cfg(test)]
mod tests;

pub use helper_code::helpers;
pub use laying::BLOCK_WORDS;
pub use shadow::{block, blocks, guard_block};
