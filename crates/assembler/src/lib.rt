//! Instructions as assembler listings write them, and the places and addresses that such listings
//! name (the mnemonics by RISC-V Unprivileged ISA 20191213, chapter 25; the places are this
//! project's own).
#![tactic(auto)]

mod emitting;
mod instructions;
mod numbers;
pub mod place;
#[cfg(test)]
mod tests;

pub use emitting::emit;
pub use instructions::{
    add, addi, andi, beq, bgeu, bltu, bne, hkey, hsite, jal, jalr, ld, lui, lwu, nop, sd, slli,
    srli, sub, sw, x,
};
pub use numbers::{between, hi, lo, to_helper, to_word};
