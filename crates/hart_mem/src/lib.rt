//! The memory of a hart, in four views: the program range, the text, the code that a rewriter
//! emits, and what its shadow and its stub keep.
#![tactic(auto)]

mod access;
mod code;
mod mem;
mod number;
mod operation;
mod page_map;
mod rights;
#[cfg(test)]
mod tests;

pub use access::{Access, StoreFault, Width};
pub use mem::Mem;
pub use operation::Operation;
pub use rv_model::Bytes;
