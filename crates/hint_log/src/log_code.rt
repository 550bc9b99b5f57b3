//! The code that appends to the hint log, and the code that takes from it.

ghost use Rattle.std.specs.Prelude.{◌≡◌, ◌++◌, OnOk, OnErr};
ghost use Rattle.code_model.specs.Helpers.{append_words};
ghost use Rattle.code_model.specs.Stub.{check_words, empty_words};
ghost use Rattle.assembler.specs.Emitted.{with_code, HasPart};

use assembler::place::{APPEND, LOGFULL, RET, VAL, X29, X30, X31};
use assembler::{
    add, addi, andi, beq, bne, emit, hi, hkey, jalr, ld, lui, sd, slli, sub, to_helper, to_word, x,
};
use rv_decode::Instr;
use rv_encode::CodeBuf;
use spec_base::{LINK_START, NoMemory};

/// Appends APPEND, a helper of 24 words: a keyed read joins the log as its key and its asked
/// count, unless the log is full. After NoMemory the buffer holds what it held and then the first
/// few of these words.
pub fn emit_append(buf: &mut CodeBuf) -> Result<(), NoMemory>
    ensures ok { OnOk result (buf.new ≡ with_code buf.old append_words) }
    ensures err { OnErr result (HasPart buf.old buf.new append_words) }
{
    emit(buf, &append())
}

/// Appends the stub's words 1 to 31. A call without a key is performed, and so is one that is the
/// oldest pair of the log, which is taken; else the shadow is stopped and the log emptied. After
/// NoMemory the buffer holds what it held and then the first few of these words.
pub fn emit_check(buf: &mut CodeBuf) -> Result<(), NoMemory>
    ensures ok { OnOk result (buf.new ≡ with_code buf.old (check_words ++ empty_words)) }
    ensures err { OnErr result (HasPart buf.old buf.new (check_words ++ empty_words)) }
{
    emit(buf, &check())?;
    emit(buf, &empty())
}

/// APPEND. The log's tail is at 8 and its head at 0 of the link, its 64 pairs from 256 on.
fn append() -> [Instr; 24]
    ensures { result ≡ append_words }
{
    let (x0, x12, x29, x30, x31) = (x(0), x(12), x(29), x(30), x(31));
    [
        sd(x31, RET, x0),
        sd(x30, X30, x0),
        hkey(x31),
        beq(x31, x0, to_word(4, 23)),
        sd(x31, VAL, x0),
        sd(x29, X29, x0),
        lui(x30, hi(LINK_START)),
        ld(x31, 8, x30),
        ld(x29, 0, x30),
        sub(x29, x31, x29),
        addi(x29, x29, -64),
        beq(x29, x0, to_helper(APPEND, 12, LOGFULL)),
        andi(x29, x31, 63),
        slli(x29, x29, 4),
        add(x29, x29, x30),
        ld(x31, VAL, x0),
        sd(x31, 256, x29),
        sd(x12, 264, x29),
        ld(x31, 8, x30),
        addi(x31, x31, 1),
        sd(x31, 8, x30),
        ld(x29, X29, x0),
        ld(x30, RET, x0),
        jalr(x0, 0, x30),
    ]
}

/// The stub's words 1 to 27.
fn check() -> [Instr; 27]
    ensures { result ≡ check_words }
{
    let (x0, x12, x29, x30, x31) = (x(0), x(12), x(29), x(30), x(31));
    [
        sd(x31, X31, x0),
        hkey(x31),
        beq(x31, x0, to_word(3, 25)),
        sd(x30, X30, x0),
        sd(x29, X29, x0),
        sd(x31, VAL, x0),
        lui(x30, hi(LINK_START)),
        ld(x29, 0, x30),
        ld(x31, 8, x30),
        beq(x29, x31, to_word(10, 28)),
        andi(x31, x29, 63),
        slli(x31, x31, 4),
        add(x31, x31, x30),
        ld(x29, 256, x31),
        ld(x30, VAL, x0),
        bne(x29, x30, to_word(16, 28)),
        ld(x29, 264, x31),
        bne(x29, x12, to_word(18, 28)),
        lui(x30, hi(LINK_START)),
        ld(x29, 0, x30),
        addi(x29, x29, 1),
        sd(x29, 0, x30),
        ld(x29, X29, x0),
        ld(x30, X30, x0),
        ld(x31, X31, x0),
        Instr::Hcall(false),
        Instr::Hleave,
    ]
}

/// The stub's words 28 to 31: head and tail become 0.
fn empty() -> [Instr; 4]
    ensures { result ≡ empty_words }
{
    let (x0, x30) = (x(0), x(30));
    [
        Instr::Hstop,
        lui(x30, hi(LINK_START)),
        sd(x0, 0, x30),
        sd(x0, 8, x30),
    ]
}
