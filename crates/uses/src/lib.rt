//! What callers of the public libraries get from their contracts alone: each function is a fact, with its body the calls
//! that it speaks of.
#![tactic(auto)]

pub mod blocks;
pub mod files;
pub mod rewriting;
