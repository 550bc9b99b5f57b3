//! The code that clears the regions as a shadow is restarted.

ghost use Rattle.std.specs.Prelude.{◌≡◌, OnOk, OnErr};
ghost use Rattle.code_model.specs.Helpers.{clear_words};
ghost use Rattle.assembler.specs.Emitted.{with_code, HasPart};

use assembler::{add, addi, bgeu, emit, hi, jal, ld, lui, lwu, sd, slli, sw, to_word, x};
use rv_decode::Instr;
use rv_encode::CodeBuf;
use spec_base::{LIST_START, NoMemory};

/// Appends the words 1 to 11 of RESTART: each listed entry of the table becomes 0, and then the
/// count of the list. After NoMemory the buffer holds what it held and then the first few of these
/// words.
pub fn emit_clear(buf: &mut CodeBuf) -> Result<(), NoMemory>
    ensures ok { OnOk result (buf.new ≡ with_code buf.old clear_words) }
    ensures err { OnErr result (HasPart buf.old buf.new clear_words) }
{
    emit(buf, &clear())
}

/// RESTART's words 1 to 11.
fn clear() -> [Instr; 11]
    ensures { result ≡ clear_words }
{
    let (x0, x28, x29, x30, x31) = (x(0), x(28), x(29), x(30), x(31));
    [
        lui(x28, hi(LIST_START)),
        ld(x29, 0, x28),
        addi(x30, x28, 8),
        slli(x29, x29, 2),
        add(x29, x29, x30),
        bgeu(x30, x29, to_word(6, 11)),
        lwu(x31, 0, x30),
        sw(x0, 0, x31),
        addi(x30, x30, 4),
        jal(x0, to_word(10, 6)),
        sd(x0, 0, x28),
    ]
}
