//! The commands that read a file and run no shadow: `plain`, `rewrite`, `replay` and `plan`.
#![tactic(auto)]

mod lines;
pub mod plain;
pub mod plan;
pub mod replay;
pub mod rewrite;
