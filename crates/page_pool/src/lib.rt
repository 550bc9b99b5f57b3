//! Frames of 4,096 bytes from a pool of bounded size. Only `Pool::reserve` takes memory.
#![tactic(auto)]

mod page;
mod pages;
mod pool;
#[cfg(test)]
mod tests;

pub use page::PAGE_BYTES;
pub use pool::{Frame, Pool, PoolFault};
