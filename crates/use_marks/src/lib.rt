//! Marks: which registers and which bytes may rest on a byte that a skipped read left unfilled, kept
//! along the instructions of the run from a restart, and the first use of such a value. A trace with
//! `--uses` keeps them (`Marks::look` before each own instruction, and `Marks::pass` after it); the
//! lemmas of proofs/Along and proofs/Completing lead from them to the place of the first use.
#![tactic(auto)]

mod access;
mod by_first;
mod marks;
mod passage;
mod ranges;
mod read_mark;
#[cfg(test)]
mod tests;

pub use marks::Marks;
pub use passage::{MarkChange, Passage};
pub use read_mark::ReadMark;
