//! A whole file from a store: a look, and then its blocks, one after the other.
#![tactic(auto)]

mod reading;
#[cfg(test)]
mod tests;

pub use reading::{FILE_LIMIT, ReadFault, read_whole};
