//! Where a program's text has calls and gate instructions, and the text in which they are replaced.
#![tactic(auto)]

mod finding;
mod found;
mod patching;
#[cfg(test)]
mod tests;

pub use finding::sites;
pub use found::Sites;
pub use patching::{patch, patched};
