//! The commands that run a program beside its shadow: `run`, `trace` and `demo`.
#![tactic(auto)]

pub mod demo;
mod lines;
mod opening;
pub mod run;
pub mod trace;
