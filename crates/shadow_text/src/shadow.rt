//! The blocks of a text.

ghost use Rattle.std.specs.Prelude.{◌≡◌, ◌+◌, ◌-◌, ◌*◌, ◌%◌, IsTrue, IfOk, length, map};
ghost use Rattle.std.specs.List.{flat_map};
ghost use Rattle.spec_base.specs.Layout.{is_lawful};
ghost use Rattle.rv_decode.specs.Instruction.{instr_of};
ghost use Rattle.rv_decode.specs.Encoding.{word_of};
ghost use Rattle.rv_model.specs.Rights.{in_text};
ghost use Rattle.code_model.specs.Blocks as spec;

use crate::laying::BLOCK_WORDS;
use crate::places::offset;
use crate::shapes::{
    auipc_block, branch_block, call_block, jal_block, jalr_block, load_block, park_block,
    plain_block, store_block,
};
use rv_decode::{Instr, decode};
use spec_base::{Layout, NoMemory};
use std::alloc::Global;

/// The block of the instruction at the address `pc` of a text. The instruction is what `word`
/// decodes to. It takes no memory.
pub fn block(instr: &Instr, word: u32, pc: u64, layout: &Layout) -> [u32; BLOCK_WORDS]
    requires decoded { instr.now ≡ instr_of word }
    requires lawful { IsTrue (is_lawful layout.now) }
    requires within { IsTrue (in_text layout.now pc) }
    ensures { result ≡ map word_of (spec.block layout.now pc instr.now) }
{
    match *instr {
        Instr::Lui { .. }
        | Instr::OpImm { .. }
        | Instr::OpImmW { .. }
        | Instr::Op { .. }
        | Instr::OpW { .. }
        | Instr::Fence { .. } => plain_block(word),
        Instr::Auipc { rd, imm } => auipc_block(rd, offset(pc, imm)),
        Instr::Jal { rd, imm } => jal_block(layout, pc, rd, offset(pc, imm)),
        Instr::Jalr { rd, rs1, imm } => jalr_block(pc, rd, rs1, imm),
        Instr::Branch { op, rs1, rs2, imm } => branch_block(layout, pc, op, rs1, rs2, imm),
        Instr::Load { op, rd, rs1, imm } => load_block(op, rd, rs1, imm),
        Instr::Store { op, rs1, rs2, imm } => store_block(op, rs1, rs2, imm),
        Instr::Ecall => call_block(),
        Instr::Ebreak
        | Instr::Hgate
        | Instr::Hleave
        | Instr::Hsite { .. }
        | Instr::Hkey { .. }
        | Instr::Hstop
        | Instr::Hrestart
        | Instr::Hcall(_)
        | Instr::Hpark(_)
        | Instr::Illegal => park_block(),
    }
}

/// The block behind the last instruction's.
pub fn guard_block() -> [u32; BLOCK_WORDS]
    ensures { result ≡ map word_of spec.guard_block }
{
    park_block()
}

/// The blocks of all words of a text, one behind the other, and the guard block: 16 words for
/// each word of the text, and 16 more.
pub fn blocks(alloc: Global, text: &[u32], layout: &Layout) -> Result<Vec<u32>, NoMemory>
    requires lawful { IsTrue (is_lawful layout.now) }
    requires whole { 4 * length text.now ≡ layout.now.text_end - layout.now.text_start }
    ensures words { IfOk result (λ words. words.items ≡ flat_map (map word_of)
        (spec.blocks_from layout.now layout.now.text_start (map instr_of text.now))) }
    ensures count { IfOk result (λ words. length words.items ≡ 16 * (length text.now + 1)) }
{
    let mut words = Vec::with_capacity(alloc, BLOCK_WORDS * (text.len() + 1))?;
    let mut pc = layout.text_start;
    for word in text {
        words.extend_from_slice(&block(&decode(*word), *word, pc, layout))?;
        pc += 4;
    }
    words.extend_from_slice(&guard_block())?;
    Ok(words)
}
