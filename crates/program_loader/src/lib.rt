//! Loading: an accepted image becomes a program at its first instruction.
#![tactic(auto)]

mod loading;
mod parts;
mod start;
#[cfg(test)]
mod tests;

pub use loading::{Process, load, load_in};
