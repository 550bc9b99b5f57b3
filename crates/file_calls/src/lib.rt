//! The calls of a program: what each one does before the store and the sinks are asked, and what
//! their answers make of the file descriptors and of the break. Nothing here takes memory.
#![tactic(auto)]

mod call;
mod change;
mod descriptor;
pub mod errno;
mod files;
mod memory;
mod plan;
#[cfg(test)]
mod tests;

pub use change::Change;
pub use files::Files;
pub use plan::{CallPlan, PlannedCall};
