//! The tails, which find the place of an access: in the copy of its region, or in the program.

ghost use Rattle.std.specs.Prelude.{◌≡◌, OnOk, OnErr, take, drop};
ghost use Rattle.code_model.specs.Helpers.{load_tail as load_words, store_tail as store_words};
ghost use Rattle.assembler.specs.Emitted.{with_code, HasPart};

use assembler::place::{ADR, ENT, FULL, RET, STAIL, X28, X29};
use assembler::{
    add, addi, andi, beq, bgeu, bltu, bne, emit, hi, jalr, ld, lo, lui, lwu, sd, slli, srli, sw,
    to_helper, to_word, x,
};
use rv_decode::Instr;
use rv_encode::CodeBuf;
use spec_base::{COPIES_START, LIST_START, Layout, NoMemory, TABLE_START};

/// LTAIL: x31 becomes the place to load from.
pub fn load_tail() -> [Instr; 15]
    ensures { result ≡ load_words }
{
    let (x0, x30, x31) = (x(0), x(30), x(31));
    [
        srli(x30, x31, 8),
        slli(x30, x30, 2),
        lui(x31, hi(TABLE_START)),
        add(x30, x30, x31),
        lwu(x30, 0, x30),
        ld(x31, ADR, x0),
        beq(x30, x0, to_word(7, 14)),
        slli(x30, x30, 8),
        andi(x31, x31, 255),
        add(x31, x31, x30),
        lui(x30, hi(COPIES_START)),
        add(x31, x31, x30),
        addi(x31, x31, -256),
        ld(x30, RET, x0),
        jalr(x0, 0, x30),
    ]
}

/// Appends STAIL, a helper of 46 words: x31 becomes the place to store to, with a new copy where
/// the region has none. After NoMemory the buffer holds what it held and then the first few of
/// these words.
pub fn emit_store_tail(buf: &mut CodeBuf, layout: &Layout) -> Result<(), NoMemory>
    ensures ok { OnOk result (buf.new ≡ with_code buf.old (store_words layout.now)) }
    ensures err { OnErr result (HasPart buf.old buf.new (store_words layout.now)) }
{
    emit(buf, &store_entry())?;
    emit(buf, &store_copy(layout))?;
    emit(buf, &store_place())
}

/// STAIL's words 1 to 6: the entry of the region, and to word 38 where it has a copy.
fn store_entry() -> [Instr; 6]
    ensures { (layout : Layout) → result ≡ take 6 (store_words layout) }
{
    let (x0, x30, x31) = (x(0), x(30), x(31));
    [
        srli(x30, x31, 8),
        slli(x30, x30, 2),
        lui(x31, hi(TABLE_START)),
        add(x30, x30, x31),
        lwu(x31, 0, x30),
        bne(x31, x0, to_word(6, 38)),
    ]
}

/// STAIL's words 7 to 37, for a region without a copy: the next slot gets the region's bytes, then
/// its word of the list, the count, and last the entry in the table. Where all slots are in use
/// the shadow parks.
fn store_copy(layout: &Layout) -> [Instr; 31]
    ensures { result ≡ take 31 (drop 6 (store_words layout.now)) }
{
    let (x0, x28, x29, x30, x31) = (x(0), x(28), x(29), x(30), x(31));
    let most = layout.regions as u64;
    [
        sd(x30, ENT, x0),
        sd(x29, X29, x0),
        sd(x28, X28, x0),
        lui(x28, hi(LIST_START)),
        ld(x29, 0, x28),
        lui(x31, hi(most)),
        addi(x31, x31, lo(most)),
        bgeu(x29, x31, to_helper(STAIL, 14, FULL)),
        slli(x31, x29, 8),
        lui(x30, hi(COPIES_START)),
        add(x31, x31, x30),
        ld(x30, ADR, x0),
        andi(x30, x30, -256),
        addi(x29, x31, 256),
        ld(x28, 0, x30),
        sd(x28, 0, x31),
        addi(x30, x30, 8),
        addi(x31, x31, 8),
        bltu(x31, x29, to_word(25, 21)),
        lui(x28, hi(LIST_START)),
        ld(x29, 0, x28),
        slli(x30, x29, 2),
        add(x30, x30, x28),
        ld(x31, ENT, x0),
        sw(x31, 8, x30),
        addi(x29, x29, 1),
        sd(x29, 0, x28),
        sw(x29, 0, x31),
        addi(x31, x29, 0),
        ld(x29, X29, x0),
        ld(x28, X28, x0),
    ]
}

/// STAIL's words 38 to 46: the place in the copy.
fn store_place() -> [Instr; 9]
    ensures { (layout : Layout) → result ≡ drop 37 (store_words layout) }
{
    let (x0, x30, x31) = (x(0), x(30), x(31));
    [
        slli(x30, x31, 8),
        lui(x31, hi(COPIES_START)),
        add(x30, x30, x31),
        ld(x31, ADR, x0),
        andi(x31, x31, 255),
        add(x31, x31, x30),
        addi(x31, x31, -256),
        ld(x30, RET, x0),
        jalr(x0, 0, x30),
    ]
}
