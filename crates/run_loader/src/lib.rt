//! Opening: a rewritten file becomes a program before the first move of its run.
#![tactic(auto)]

mod opening;
mod parts;
#[cfg(test)]
mod tests;

pub use opening::{OpenFault, Opened, open};
