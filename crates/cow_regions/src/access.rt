//! The helpers that an access goes through, and JUMP.

ghost use Rattle.std.specs.Prelude.{◌≡◌, ◌-◌, ◌%◌, pos, ◌<◌, ◌≤◌, OnOk, OnErr};
ghost use Rattle.code_model.specs.Helpers.{access_helper as helper_words, jump_words};
ghost use Rattle.assembler.specs.Emitted.{with_code, HasPart};
ghost use Rattle.cow_regions.specs.Access.{access_code, four_helpers};

use crate::tails::{emit_store_tail, load_tail};
use assembler::place::{ADR, FAULT, JUMP, LOAD1, LTAIL, RET, STAIL, STORE1, X30};
use assembler::{
    add, addi, andi, between, bgeu, bltu, bne, emit, hi, jal, jalr, ld, lo, lui, sd, slli, sub,
    to_helper, to_word, x,
};
use rv_decode::Instr;
use rv_encode::CodeBuf;
use spec_base::{Layout, NoMemory, RANGE_START, SHADOW_START};

/// Appends the helpers LOAD1 to STAIL, which are the first 205 words of the helpers. After
/// NoMemory the buffer holds what it held and then the first few of these words.
pub fn emit_access(buf: &mut CodeBuf, layout: &Layout) -> Result<(), NoMemory>
    ensures ok { OnOk result (buf.new ≡ with_code buf.old (access_code layout.now)) }
    ensures err { OnErr result (HasPart buf.old buf.new (access_code layout.now)) }
{
    emit_four(buf, layout, LOAD1, LTAIL)?;
    emit_four(buf, layout, STORE1, STAIL)?;
    emit(buf, &jump(layout))?;
    emit(buf, &load_tail())?;
    emit_store_tail(buf, layout)
}

/// Appends the helpers for accesses of 1, 2, 4 and 8 bytes, the first of which has this offset. An
/// access of 8 bytes can begin 4 bytes before the text, where that starts off a multiple of 8.
fn emit_four(buf: &mut CodeBuf, layout: &Layout, first: u64, tail: u64) -> Result<(), NoMemory>
    requires first { (first ≤ 0x100) × (first % 4 ≡ 0) }
    requires tail { (tail < 4096) × (tail % 4 ≡ 0) }
    ensures ok { OnOk result (buf.new ≡ with_code buf.old (four_helpers layout.now first tail)) }
    ensures err { OnErr result (HasPart buf.old buf.new (four_helpers layout.now first tail)) }
{
    let start = layout.text_start;
    emit_one(buf, layout, 1, start, first, tail)?;
    emit_one(buf, layout, 2, start, first + 0x40, tail)?;
    emit_one(buf, layout, 4, start, first + 0x80, tail)?;
    emit_one(buf, layout, 8, start.saturating_sub(4), first + 0xC0, tail)
}

/// Appends the helper at an offset for accesses of so many bytes. `reaching` is the least address
/// from which such an access may reach into the text.
fn emit_one(
    buf: &mut CodeBuf,
    layout: &Layout,
    width: u64,
    reaching: u64,
    helper: u64,
    tail: u64,
) -> Result<(), NoMemory>
    requires width { (1 ≤ width) × (width ≤ 8) }
    requires helper { (helper ≤ 0x1C0) × (helper % 4 ≡ 0) }
    requires tail { (tail < 4096) × (tail % 4 ≡ 0) }
    ensures ok { OnOk result (buf.new ≡ with_code buf.old (helper_words layout.now width reaching helper tail)) }
    ensures err { OnErr result (HasPart buf.old buf.new (helper_words layout.now width reaching helper tail)) }
{
    emit(buf, &access_helper(layout, width, reaching, helper, tail))
}

/// LOADw and STOREw: the address in ADR is a multiple of the width, in the program range, and
/// outside the text; else the shadow parks. The tail finds the place of the access.
fn access_helper(layout: &Layout, width: u64, reaching: u64, helper: u64, tail: u64) -> [Instr; 16]
    requires width { (1 ≤ width) × (width ≤ 8) }
    requires helper { helper ≤ 0x1C0 }
    requires tail { tail < 4096 }
    ensures { result ≡ helper_words layout.now width reaching helper tail }
{
    let (x0, x30, x31) = (x(0), x(30), x(31));
    let (end, range_end) = (layout.text_end, layout.version.range_end());
    [
        sd(x31, RET, x0),
        sd(x30, X30, x0),
        ld(x31, ADR, x0),
        andi(x30, x31, unaligned_bits(width)),
        bne(x30, x0, to_helper(helper, 5, FAULT)),
        lui(x30, hi(RANGE_START)),
        bltu(x31, x30, to_helper(helper, 7, FAULT)),
        lui(x30, hi(range_end)),
        bgeu(x31, x30, to_helper(helper, 9, FAULT)),
        lui(x30, hi(reaching)),
        addi(x30, x30, lo(reaching)),
        bltu(x31, x30, to_word(12, 16)),
        lui(x30, hi(end)),
        addi(x30, x30, lo(end)),
        bltu(x31, x30, to_helper(helper, 15, FAULT)),
        jal(x0, between(helper + 60, tail)),
    ]
}

/// The bits of an address that are 0 where it is a multiple of the width.
fn unaligned_bits(width: u64) -> i64
    requires { (1 ≤ width) × (width ≤ 8) }
    ensures { result ≡ pos (width - 1) }
{
    width as i64 - 1
}

/// JUMP: to the block of the address in ADR, which is a multiple of 4 in the text; else the shadow
/// parks. Bit 0 of the address doesn't count, as in a jump by register.
fn jump(layout: &Layout) -> [Instr; 16]
    ensures { result ≡ jump_words layout.now }
{
    let (x0, x30, x31) = (x(0), x(30), x(31));
    let start = layout.text_start;
    let length = layout.text_end.saturating_sub(start);
    [
        sd(x30, X30, x0),
        ld(x31, ADR, x0),
        andi(x31, x31, -2),
        andi(x30, x31, 2),
        bne(x30, x0, to_helper(JUMP, 5, FAULT)),
        lui(x30, hi(start)),
        addi(x30, x30, lo(start)),
        sub(x31, x31, x30),
        lui(x30, hi(length)),
        addi(x30, x30, lo(length)),
        bgeu(x31, x30, to_helper(JUMP, 11, FAULT)),
        slli(x31, x31, 4),
        lui(x30, hi(SHADOW_START)),
        add(x31, x31, x30),
        ld(x30, X30, x0),
        jalr(x0, 0, x31),
    ]
}
