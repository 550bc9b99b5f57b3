//! Rewrites an accepted program: its text is patched, and the code of its shadow is put beside it.
//! [`rewrite_as`] gives the parts of the rewritten program, and [`rewrite_to`] puts its file to a
//! sink, for which it makes each word of code when it is put.
#![tactic(auto)]

mod code;
mod layout;
mod parts;
#[cfg(test)]
mod tests;
mod writing;

pub use code::ProgramCode;
pub use parts::{rewrite, rewrite_as};
pub use writing::{Rewritten, rewrite_to};
