//! The code that writes the restart box, and the code that reads it. The site is at 0 of the box,
//! register xi at 8i.

ghost use Rattle.std.specs.Prelude.{◌≡◌, ◌*◌, ◌<◌, OnOk, OnErr, pos, take, drop};
ghost use Rattle.code_model.specs.Assembly.{ld, sd};
ghost use Rattle.code_model.specs.Helpers.{unbox_words, box_loads};
ghost use Rattle.code_model.specs.Stub.{box_words, box_stores};
ghost use Rattle.assembler.specs.Emitted.{with_code, HasPart};

use assembler::place::{ADR, BOX_START, JUMP, X29, X30, X31};
use assembler::{addi, emit, hi, hsite, jal, jalr, ld, lo, lui, sd, to_word, x};
use rv_decode::Instr;
use rv_encode::CodeBuf;
use spec_base::{HELPERS_START, NoMemory};

/// Appends the stub's words 32 to 71: site and registers go into the box, the shadow is restarted,
/// and the call is performed. After NoMemory the buffer holds what it held and then the first few
/// of these words.
pub fn emit_box_save(buf: &mut CodeBuf) -> Result<(), NoMemory>
    ensures ok { OnOk result (buf.new ≡ with_code buf.old box_words) }
    ensures err { OnErr result (HasPart buf.old buf.new box_words) }
{
    emit(buf, &save_begin())?;
    emit_box_stores(buf)?;
    emit(buf, &save_end())
}

/// Appends the words 12 to 50 of RESTART: the registers come from the box, the read that restarted
/// the shadow is assumed, and JUMP goes on behind its site. After NoMemory the buffer holds what
/// it held and then the first few of these words.
pub fn emit_box_load(buf: &mut CodeBuf) -> Result<(), NoMemory>
    ensures ok { OnOk result (buf.new ≡ with_code buf.old unbox_words) }
    ensures err { OnErr result (HasPart buf.old buf.new unbox_words) }
{
    emit(buf, &load_begin())?;
    emit_box_loads(buf)?;
    emit(buf, &load_end())
}

/// The stub's words 32 to 36: the site is stored, and x30 and x29 are the program's again.
fn save_begin() -> [Instr; 5]
    ensures { result ≡ take 5 box_words }
{
    let (x0, x29, x30, x31) = (x(0), x(29), x(30), x(31));
    [
        lui(x31, hi(BOX_START)),
        hsite(x30),
        sd(x30, 0, x31),
        ld(x30, X30, x0),
        ld(x29, X29, x0),
    ]
}

/// The stub's words 67 to 71: x31 is stored, and x30 is the program's again.
fn save_end() -> [Instr; 5]
    ensures { result ≡ drop 35 box_words }
{
    let (x0, x30, x31) = (x(0), x(30), x(31));
    [
        ld(x30, X31, x0),
        sd(x30, 248, x31),
        ld(x30, X30, x0),
        Instr::Hrestart,
        jal(x0, to_word(71, 25)),
    ]
}

/// RESTART's words 12 to 17: the address behind the site goes to ADR, and x31 to its place.
fn load_begin() -> [Instr; 6]
    ensures { result ≡ take 6 unbox_words }
{
    let (x0, x30, x31) = (x(0), x(30), x(31));
    [
        lui(x31, hi(BOX_START)),
        ld(x30, 0, x31),
        addi(x30, x30, 4),
        sd(x30, ADR, x0),
        ld(x30, 248, x31),
        sd(x30, X31, x0),
    ]
}

/// RESTART's words 48 to 50.
fn load_end() -> [Instr; 3]
    ensures { result ≡ drop 36 unbox_words }
{
    let (x0, x31) = (x(0), x(31));
    [
        Instr::Hcall(true),
        lui(x31, hi(HELPERS_START + JUMP)),
        jalr(x0, lo(HELPERS_START + JUMP), x31),
    ]
}

/// Appends the stores of x1 to x30 into the box.
fn emit_box_stores(buf: &mut CodeBuf) -> Result<(), NoMemory>
    ensures ok { OnOk result (buf.new ≡ with_code buf.old (box_stores 1 30)) }
    ensures err { OnErr result (HasPart buf.old buf.new (box_stores 1 30)) }
{
    for number in 1..31u32 {
        emit(buf, &[box_store(number)])?;
    }
    Ok(())
}

/// Appends the loads of x1 to x30 from the box.
fn emit_box_loads(buf: &mut CodeBuf) -> Result<(), NoMemory>
    ensures ok { OnOk result (buf.new ≡ with_code buf.old (box_loads 1 30)) }
    ensures err { OnErr result (HasPart buf.old buf.new (box_loads 1 30)) }
{
    for number in 1..31u32 {
        emit(buf, &[box_load(number)])?;
    }
    Ok(())
}

/// `sd xi, 8i(x31)` for a register xi.
fn box_store(register: u32) -> Instr
    requires { register < 32 }
    ensures { result ≡ sd register (pos (8 * register)) 31 }
{
    sd(x(register), 8 * register as i64, x(31))
}

/// `ld xi, 8i(x31)` for a register xi.
fn box_load(register: u32) -> Instr
    requires { register < 32 }
    ensures { result ≡ ld register (pos (8 * register)) 31 }
{
    ld(x(register), 8 * register as i64, x(31))
}
