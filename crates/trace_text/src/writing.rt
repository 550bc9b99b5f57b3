//! The writing of trace lines.

ghost use Rattle.std.specs.Prelude.{◌≡◌, ◌<◌, ◌++◌, ◌∷◌, [], codes, decimal, IfOk, OnOk};
ghost use Rattle.std.specs.Fmt.{signed_decimal};
ghost use Rattle.std.specs.Char.{digit_char};
ghost use Rattle.trace_text.specs.Line.{hex_text, address_text, trap_name, read_words, block_words, note_words, spaced, line_of, turns_line_of, use_line_of};

use crate::keyword::{park_text, trap_text};
use itoa::Buffer;
use spec_base::{BlockSpot, NoMemory, Note, ReadSpot, Trap};
use std::alloc::Global;

/// Most lines have no more bytes.
const USUAL_LENGTH: usize = 64;

/// Adds a word behind a space.
fn push_word(line: &mut Vec<u8>, word: &[u8]) -> Result<(), NoMemory>
    ensures { OnOk result (line.new.items ≡ line.old.items ++ spaced (word.now ∷ [])) }
{
    line.push(b' ')?;
    line.extend_from_slice(word)?;
    Ok(())
}

fn push_number(line: &mut Vec<u8>, number: u64) -> Result<(), NoMemory>
    ensures { OnOk result (line.new.items ≡ line.old.items ++ spaced (decimal number ∷ [])) }
{
    push_word(line, Buffer::new().format(number).as_bytes())
}

fn push_answer(line: &mut Vec<u8>, answer: i64) -> Result<(), NoMemory>
    ensures { OnOk result (line.new.items ≡ line.old.items ++ spaced (signed_decimal answer ∷ [])) }
{
    push_word(line, Buffer::new().format(answer).as_bytes())
}

/// The lower-case hexadecimal digit of a number below 16.
fn hex_digit(value: u8) -> u8
    requires { value < 16 }
    ensures { result ≡ digit_char value }
{
    if value < 10 {
        b'0' + value
    } else {
        b'a' + (value - 10)
    }
}

/// Adds bytes behind a space, each as two hexadecimal digits.
fn push_bytes(line: &mut Vec<u8>, bytes: &[u8]) -> Result<(), NoMemory>
    ensures { OnOk result (line.new.items ≡ line.old.items ++ spaced (hex_text bytes.now ∷ [])) }
{
    line.reserve(2 * bytes.len() + 1)?;
    line.push(b' ')?;
    for byte in bytes {
        line.push(hex_digit(*byte / 16))?;
        line.push(hex_digit(*byte % 16))?;
    }
    Ok(())
}

/// Adds an address behind a space.
fn push_address(alloc: Global, line: &mut Vec<u8>, address: u64) -> Result<(), NoMemory>
    ensures { OnOk result (line.new.items ≡ line.old.items ++ spaced (address_text address ∷ [])) }
{
    let digits = format!(in alloc; "{address:x}")?;
    push_word(line, b"0x")?;
    line.extend_from_slice(digits.as_bytes())?;
    Ok(())
}

fn push_call(
    line: &mut Vec<u8>,
    number: u64,
    a0: u64,
    a1: u64,
    a2: u64,
    answer: i64,
) -> Result<(), NoMemory>
    ensures { OnOk result (line.new.items ≡ line.old.items ++ spaced (codes "call" ∷ decimal number ∷ decimal a0 ∷ decimal a1 ∷ decimal a2 ∷ signed_decimal answer ∷ [])) }
{
    push_word(line, b"call")?;
    push_number(line, number)?;
    push_number(line, a0)?;
    push_number(line, a1)?;
    push_number(line, a2)?;
    push_answer(line, answer)
}

fn push_read(line: &mut Vec<u8>, keyword: &[u8], spot: &ReadSpot) -> Result<(), NoMemory>
    ensures { OnOk result (line.new.items ≡ line.old.items ++ spaced (keyword.now ∷ read_words spot.now)) }
{
    push_word(line, keyword)?;
    push_bytes(line, spot.name.as_bytes())?;
    push_number(line, spot.offset)?;
    push_number(line, spot.count)
}

fn push_block(line: &mut Vec<u8>, keyword: &[u8], spot: &BlockSpot) -> Result<(), NoMemory>
    ensures { OnOk result (line.new.items ≡ line.old.items ++ spaced (keyword.now ∷ block_words spot.now)) }
{
    push_word(line, keyword)?;
    push_bytes(line, spot.name.as_bytes())?;
    push_number(line, spot.block)
}

fn push_text(line: &mut Vec<u8>, to: u8, text: &[u8]) -> Result<(), NoMemory>
    ensures { OnOk result (line.new.items ≡ line.old.items ++ spaced (codes "text" ∷ decimal to ∷ hex_text text.now ∷ [])) }
{
    push_word(line, b"text")?;
    push_number(line, u64::from(to))?;
    push_bytes(line, text)
}

fn push_trap(alloc: Global, line: &mut Vec<u8>, trap: Trap, pc: u64) -> Result<(), NoMemory>
    ensures { OnOk result (line.new.items ≡ line.old.items ++ spaced (codes "trap" ∷ trap_name trap ∷ address_text pc ∷ [])) }
{
    push_word(line, b"trap")?;
    push_word(line, trap_text(trap))?;
    push_address(alloc, line, pc)
}

/// Adds a keyword and one more word.
fn push_pair(line: &mut Vec<u8>, keyword: &[u8], word: &[u8]) -> Result<(), NoMemory>
    ensures { OnOk result (line.new.items ≡ line.old.items ++ spaced (keyword.now ∷ word.now ∷ [])) }
{
    push_word(line, keyword)?;
    push_word(line, word)
}

/// Adds a keyword and a number.
fn push_numbered(line: &mut Vec<u8>, keyword: &[u8], number: u64) -> Result<(), NoMemory>
    ensures { OnOk result (line.new.items ≡ line.old.items ++ spaced (keyword.now ∷ decimal number ∷ [])) }
{
    push_word(line, keyword)?;
    push_number(line, number)
}

/// Adds the words of a note.
fn push_note(alloc: Global, line: &mut Vec<u8>, note: &Note, text: &[u8]) -> Result<(), NoMemory>
    ensures { OnOk result (line.new.items ≡ line.old.items ++ spaced (note_words note.now text.now)) }
{
    match note {
        Note::Call {
            number,
            a0,
            a1,
            a2,
            answer,
        } => push_call(line, *number, *a0, *a1, *a2, *answer),
        Note::Text { to, .. } => push_text(line, *to, text),
        Note::Exit(code) => push_numbered(line, b"exit", u64::from(*code)),
        Note::Trap(trap, pc) => push_trap(alloc, line, *trap, *pc),
        Note::Restart(spot) => push_read(line, b"restart", spot),
        Note::Match(spot) => push_read(line, b"match", spot),
        Note::Hint(spot) => push_read(line, b"hint", spot),
        Note::Fill(spot) => push_read(line, b"fill", spot),
        Note::Park(cause) => push_pair(line, b"park", park_text(*cause)),
        Note::Stall(spot) => push_block(line, b"stall", spot),
        Note::Fetch(spot) => push_block(line, b"fetch", spot),
        Note::Drop(spot) => push_block(line, b"drop", spot),
        Note::Lost(spot) => push_block(line, b"lost", spot),
        Note::Fault => push_pair(line, b"fault", b"store"),
    }
}

/// Begins a line with its two counts.
fn begin(alloc: Global, own: u64, shadow: u64) -> Result<Vec<u8>, NoMemory>
    ensures { IfOk result (λ line. line.items ≡ decimal own ++ spaced (decimal shadow ∷ [])) }
{
    let mut line = Vec::with_capacity(alloc, USUAL_LENGTH)?;
    line.extend_from_slice(Buffer::new().format(own).as_bytes())?;
    push_number(&mut line, shadow)?;
    Ok(line)
}

/// The trace line of a note. `own` is how many instructions the program has completed, and
/// `shadow` how many the shadow has since its restart. `text` is what a `Text` note put.
pub fn line(
    alloc: Global,
    own: u64,
    shadow: u64,
    note: &Note,
    text: &[u8],
) -> Result<Vec<u8>, NoMemory>
    ensures { IfOk result (λ line. line.items ≡ line_of own shadow note.now text.now) }
{
    let mut line = begin(alloc, own, shadow)?;
    push_note(alloc, &mut line, note, text)?;
    line.push(b'\n')?;
    Ok(line)
}

/// The last line of a trace whose turns are over.
pub fn turns_line(alloc: Global, own: u64, shadow: u64) -> Result<Vec<u8>, NoMemory>
    ensures { IfOk result (λ line. line.items ≡ turns_line_of own shadow) }
{
    let mut line = begin(alloc, own, shadow)?;
    line.extend_from_slice(b" turns\n")?;
    Ok(line)
}

/// The line that says that instruction `number` is the first to use a byte which a skipped read
/// left unfilled.
pub fn use_line(alloc: Global, own: u64, shadow: u64, number: u64) -> Result<Vec<u8>, NoMemory>
    ensures { IfOk result (λ line. line.items ≡ use_line_of own shadow number) }
{
    let mut line = begin(alloc, own, shadow)?;
    push_numbered(&mut line, b"use", number)?;
    line.push(b'\n')?;
    Ok(line)
}
