//! The meaning of RV64IM and of the gate instructions: memory, the rights of each view, registers,
//! and what one instruction does. All of it stands in specs/.
#![tactic(auto)]

mod bytes;

pub use bytes::Bytes;
