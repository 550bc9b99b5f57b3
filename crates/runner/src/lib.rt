//! The runner of rewritten programs: two harts over one memory, a cache of blocks, and what is counted
//! and told. A move is one step of the run that it shows, with what a store and two sinks answer.
#![tactic(auto)]

mod answering;
mod bulk;
mod bulk_shadow;
mod calling;
mod demanding;
mod fetching;
mod going;
mod moving;
mod opening;
mod own;
mod own_call;
mod own_move;
mod performing;
mod putting;
mod reading;
mod restarting;
mod runner;
mod shadow;
mod shadow_move;
mod showing;
#[cfg(test)]
mod tests;

pub use runner::Runner;
