//! The nine shapes of blocks.

ghost use Rattle.std.specs.Prelude.{◌≡◌, ◌+◌, ◌*◌, ◌^◌, ◌<◌, ◌≤◌, ◌≢◌, ◌==◌, [], ◌∷◌, IsTrue, map};
ghost use Rattle.std.specs.List.{All};
ghost use Rattle.spec_base.specs.Layout.{is_lawful};
ghost use Rattle.spec_base.specs.Word.{plus_int};
ghost use Rattle.rv_decode.specs.Encoding.{word_of, IsEncodable};
ghost use Rattle.rv_decode.specs.Formats.{FitsIn, IsMultipleOf};
ghost use Rattle.rv_decode.specs.Instruction.{instr_of};
ghost use Rattle.rv_model.specs.Rights.{in_text};
ghost use Rattle.code_model.specs.Assembly as asm;
ghost use Rattle.code_model.specs.Blocks as spec;

use crate::laying::{BLOCK_WORDS, block_of, block_of_both, landing_pad};
use crate::places::{block_at, is_target, load_helper, offset, store_helper};
use assembler::place::{ADR, APPEND, JUMP, X30, X31};
use assembler::{addi, between, hi, jal, jalr, ld, lo, lui, nop, sd, slli, x};
use rv_decode::{BranchOp, Instr, LoadOp, StoreOp};
use rv_encode::encode;
use spec_base::{HELPERS_START, Layout, Park, Reg};

/// Goes from a word of a block to word 1 of the following block.
fn next_block(word: u32) -> Instr
    requires { word ≤ 16 }
    ensures instr { result ≡ spec.next_block word }
    ensures encodable { IsEncodable result }
{
    let imm = i64::from(68 - 4 * word);
    Instr::Jal { rd: x(0), imm }
}

/// An instruction that only computes stands in its block as it is.
pub fn plain_block(word: u32) -> [u32; BLOCK_WORDS]
    requires { instr_of word ≢ Instr.Illegal }
    ensures { result ≡ map word_of (spec.with_pad (spec.plain_words (instr_of word))) }
{
    let mut words = [0; BLOCK_WORDS];
    words[0] = landing_pad();
    words[1] = word;
    words[2] = encode(&next_block(2));
    words
}

/// `auipc`, whose result is a multiple of 4, of which a quarter is built and shifted, since it may
/// need more than 32 bits.
pub fn auipc_block(rd: Reg, value: u64) -> [u32; BLOCK_WORDS]
    ensures { result ≡ map word_of (spec.with_pad (spec.auipc_words rd value)) }
{
    let quarter = value / 4;
    block_of(&[
        lui(rd, hi(quarter)),
        addi(rd, rd, lo(quarter)),
        slli(rd, rd, 2),
        next_block(4),
    ])
}

/// The program would trap there.
pub fn park_block() -> [u32; BLOCK_WORDS]
    ensures { result ≡ map word_of (spec.with_pad spec.park_words) }
{
    block_of(&[Instr::Hpark(Park::Fault)])
}

/// `jal`, which parks where it doesn't go to a target.
pub fn jal_block(layout: &Layout, pc: u64, rd: Reg, target: u64) -> [u32; BLOCK_WORDS]
    requires lawful { IsTrue (is_lawful layout.now) }
    requires within { IsTrue (in_text layout.now pc) }
    ensures { result ≡ map word_of (spec.with_pad (spec.jal_words layout.now pc rd target)) }
{
    if is_target(layout, target) {
        jump_block(pc + 4, rd, block_at(layout, target))
    } else {
        park_block()
    }
}

/// Links, and jumps to the landing pad of a block.
fn jump_block(link: u64, rd: Reg, to: u64) -> [u32; BLOCK_WORDS]
    ensures { result ≡ map word_of (spec.with_pad (
        asm.lui rd (asm.hi link) ∷ asm.addi rd rd (asm.lo link) ∷ asm.sd 31 asm.X31 0
        ∷ asm.lui 31 (asm.hi to) ∷ asm.jalr 0 (asm.lo to) 31 ∷ [])) }
{
    block_of(&[
        lui(rd, hi(link)),
        addi(rd, rd, lo(link)),
        sd(x(31), X31, x(0)),
        lui(x(31), hi(to)),
        jalr(x(0), lo(to), x(31)),
    ])
}

/// x31 is spilled again where it is rd, since then the program's value of it is the link.
fn link_spill(rd: Reg) -> Instr
    ensures instr { result ≡ spec.link_spill (rd == 31) }
    ensures encodable { IsEncodable result }
{
    if rd == x(31) {
        sd(x(31), X31, x(0))
    } else {
        nop()
    }
}

/// Leaves in ADR what a `jalr` adds up.
fn target_words(rs1: Reg, imm: i64) -> [Instr; 3]
    requires { FitsIn 12 imm }
    ensures words { result ≡ asm.sd 31 asm.X31 0 ∷ asm.addi 31 rs1 imm ∷ asm.sd 31 asm.ADR 0 ∷ [] }
    ensures encodable { All IsEncodable result }
{
    [
        sd(x(31), X31, x(0)),
        addi(x(31), rs1, imm),
        sd(x(31), ADR, x(0)),
    ]
}

/// Links, spills, and goes to a helper.
fn link_words(link: u64, rd: Reg, spill: Instr, helper: u64) -> [Instr; 5]
    requires spill { IsEncodable spill }
    ensures words { result ≡ asm.lui rd (asm.hi link) ∷ asm.addi rd rd (asm.lo link) ∷ spill
        ∷ asm.lui 31 (asm.hi helper) ∷ asm.jalr 0 (asm.lo helper) 31 ∷ [] }
    ensures encodable { All IsEncodable result }
{
    [
        lui(rd, hi(link)),
        addi(rd, rd, lo(link)),
        spill,
        lui(x(31), hi(helper)),
        jalr(x(0), lo(helper), x(31)),
    ]
}

/// `jalr`: the target goes to ADR before rd is written, and the helper JUMP takes it up.
pub fn jalr_block(pc: u64, rd: Reg, rs1: Reg, imm: i64) -> [u32; BLOCK_WORDS]
    requires pc { pc < 2 ^ 32 }
    requires imm { FitsIn 12 imm }
    ensures { result ≡ map word_of (spec.with_pad (spec.jalr_words pc rd rs1 imm)) }
{
    let target = target_words(rs1, imm);
    let link = link_words(pc + 4, rd, link_spill(rd), HELPERS_START + JUMP);
    block_of_both(&target, &link)
}

/// Where a taken branch goes on: at the block of its target, or to a park.
fn taken_word(layout: &Layout, pc: u64, imm: i64) -> Instr
    requires lawful { IsTrue (is_lawful layout.now) }
    requires within { IsTrue (in_text layout.now pc) }
    requires imm { FitsIn 13 imm }
    ensures instr { let target = plus_int pc imm in
        result ≡ spec.taken_word (spec.is_target layout.now target) layout.now pc target }
    ensures encodable { IsEncodable result }
{
    let target = offset(pc, imm);
    if !is_target(layout, target) {
        return Instr::Hpark(Park::Fault);
    }
    // from word 3 of this block to word 1 of the target's
    let from = block_at(layout, pc) + 3 * 4;
    let to = block_at(layout, target) + 4;
    jal(x(0), between(from, to))
}

/// A branch: where it is taken it goes over the next word, and on to its target.
pub fn branch_block(
    layout: &Layout,
    pc: u64,
    op: BranchOp,
    rs1: Reg,
    rs2: Reg,
    imm: i64,
) -> [u32; BLOCK_WORDS]
    requires lawful { IsTrue (is_lawful layout.now) }
    requires within { IsTrue (in_text layout.now pc) }
    requires imm { FitsIn 13 imm }
    ensures { let target = plus_int pc imm in
        result ≡ map word_of (spec.with_pad (spec.branch_words layout.now pc op rs1 rs2 target)) }
{
    let taken = taken_word(layout, pc, imm);
    block_of(&[
        Instr::Branch {
            op,
            rs1,
            rs2,
            imm: 8,
        },
        next_block(2),
        taken,
    ])
}

/// Leaves in x31 the place that a helper finds for an access at rs1 + imm.
fn access_words(helper: u64, rs1: Reg, imm: i64) -> [Instr; 5]
    requires helper { helper < 2 ^ 12 }
    requires imm { FitsIn 12 imm }
    ensures words { result ≡ spec.access_words helper rs1 imm }
    ensures encodable { All IsEncodable result }
{
    let find = HELPERS_START + helper;
    [
        sd(x(31), X31, x(0)),
        addi(x(31), rs1, imm),
        sd(x(31), ADR, x(0)),
        lui(x(31), hi(find)),
        jalr(x(31), lo(find), x(31)),
    ]
}

/// x31 is restored behind a load, unless it is what was loaded.
fn load_restore(rd: Reg) -> Instr
    ensures instr { result ≡ spec.load_restore (rd == 31) }
    ensures encodable { IsEncodable result }
{
    if rd == x(31) {
        nop()
    } else {
        ld(x(31), X31, x(0))
    }
}

/// A load through the place in x31.
pub fn load_block(op: LoadOp, rd: Reg, rs1: Reg, imm: i64) -> [u32; BLOCK_WORDS]
    requires { FitsIn 12 imm }
    ensures { result ≡ map word_of (spec.with_pad (spec.load_words op rd rs1 imm)) }
{
    let access = access_words(load_helper(op), rs1, imm);
    block_of_both(
        &access,
        &[
            ld(x(30), X30, x(0)),
            Instr::Load {
                op,
                rd,
                rs1: x(31),
                imm: 0,
            },
            load_restore(rd),
            next_block(9),
        ],
    )
}

/// A store through the place in x31. x31 itself is stored through x30.
pub fn store_block(op: StoreOp, rs1: Reg, rs2: Reg, imm: i64) -> [u32; BLOCK_WORDS]
    requires { FitsIn 12 imm }
    ensures { result ≡ map word_of (spec.with_pad (spec.store_words op rs1 rs2 imm)) }
{
    let access = access_words(store_helper(op), rs1, imm);
    if rs2 == x(31) {
        block_of_both(
            &access,
            &[
                ld(x(30), X31, x(0)),
                Instr::Store {
                    op,
                    rs1: x(31),
                    rs2: x(30),
                    imm: 0,
                },
                ld(x(30), X30, x(0)),
                ld(x(31), X31, x(0)),
                next_block(10),
            ],
        )
    } else {
        block_of_both(
            &access,
            &[
                ld(x(30), X30, x(0)),
                Instr::Store {
                    op,
                    rs1: x(31),
                    rs2,
                    imm: 0,
                },
                ld(x(31), X31, x(0)),
                next_block(9),
            ],
        )
    }
}

/// A call appends to the hint log, and is assumed.
pub fn call_block() -> [u32; BLOCK_WORDS]
    ensures { result ≡ map word_of (spec.with_pad spec.call_words) }
{
    let append = HELPERS_START + APPEND;
    block_of(&[
        sd(x(31), X31, x(0)),
        lui(x(31), hi(append)),
        jalr(x(31), lo(append), x(31)),
        ld(x(30), X30, x(0)),
        ld(x(31), X31, x(0)),
        Instr::Hcall(false),
        next_block(7),
    ])
}
