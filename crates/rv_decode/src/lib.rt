//! The instructions of RV64IM and the gate instructions, and the decoding of a word.
#![tactic(auto)]

mod decoding;
mod fields;
mod instr;
mod laws;
mod operation;
#[cfg(test)]
mod tests;

pub use decoding::decode;
pub use instr::{BranchOp, ImmOp, ImmWOp, Instr, LoadOp, RegOp, RegWOp, StoreOp};
pub use laws::{decodes_encoded, encodes_decoded};
