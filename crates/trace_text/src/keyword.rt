//! The words of which there is a fixed number: keywords, traps and park causes.

ghost use Rattle.std.specs.Prelude.{◌≡◌, bytes_eq};
ghost use Rattle.trace_text.specs.Line.{park_name, trap_name};
ghost use Rattle.trace_text.specs.Grammar.{keyword_in, park_in, trap_in};

use spec_base::{Park, Trap};

/// What the fields behind it say.
#[derive(Clone, Copy)]
pub enum Keyword {
    Call,
    Text,
    Match,
    Restart,
    Stall,
    Hint,
    Fill,
    Park,
    Fetch,
    Drop,
    Lost,
    Exit,
    Trap,
    Fault,
    Use,
}

// Whether a word is this name.
fn is(word: &[u8], name: &[u8]) -> bool
    ensures { result ≡ bytes_eq word.now name.now }
{
    word == name
}

/// The keyword that a word is.
pub fn keyword_named(word: &[u8]) -> Option<Keyword>
    ensures { result ≡ keyword_in word.now }
{
    if is(word, b"call") {
        Some(Keyword::Call)
    } else if is(word, b"text") {
        Some(Keyword::Text)
    } else if is(word, b"match") {
        Some(Keyword::Match)
    } else if is(word, b"restart") {
        Some(Keyword::Restart)
    } else if is(word, b"stall") {
        Some(Keyword::Stall)
    } else if is(word, b"hint") {
        Some(Keyword::Hint)
    } else if is(word, b"fill") {
        Some(Keyword::Fill)
    } else if is(word, b"park") {
        Some(Keyword::Park)
    } else if is(word, b"fetch") {
        Some(Keyword::Fetch)
    } else if is(word, b"drop") {
        Some(Keyword::Drop)
    } else if is(word, b"lost") {
        Some(Keyword::Lost)
    } else if is(word, b"exit") {
        Some(Keyword::Exit)
    } else if is(word, b"trap") {
        Some(Keyword::Trap)
    } else if is(word, b"fault") {
        Some(Keyword::Fault)
    } else if is(word, b"use") {
        Some(Keyword::Use)
    } else {
        None
    }
}

/// The trap that a word names.
pub fn trap_named(word: &[u8]) -> Option<Trap>
    ensures { result ≡ trap_in word.now }
{
    if is(word, trap_text(Trap::Illegal)) {
        Some(Trap::Illegal)
    } else if is(word, trap_text(Trap::FetchOut)) {
        Some(Trap::FetchOut)
    } else if is(word, trap_text(Trap::Misaligned)) {
        Some(Trap::Misaligned)
    } else if is(word, trap_text(Trap::LoadOut)) {
        Some(Trap::LoadOut)
    } else if is(word, trap_text(Trap::StoreOut)) {
        Some(Trap::StoreOut)
    } else if is(word, trap_text(Trap::Break)) {
        Some(Trap::Break)
    } else {
        None
    }
}

/// The park cause that a word names.
pub fn park_named(word: &[u8]) -> Option<Park>
    ensures { result ≡ park_in word.now }
{
    if is(word, park_text(Park::Exit)) {
        Some(Park::Exit)
    } else if is(word, park_text(Park::Fault)) {
        Some(Park::Fault)
    } else if is(word, park_text(Park::Regions)) {
        Some(Park::Regions)
    } else if is(word, park_text(Park::LogFull)) {
        Some(Park::LogFull)
    } else if is(word, park_text(Park::Store)) {
        Some(Park::Store)
    } else {
        None
    }
}

/// The name of a trap.
pub fn trap_text(trap: Trap) -> &'static [u8]
    ensures { result.now ≡ trap_name trap }
{
    match trap {
        Trap::Illegal => b"Illegal",
        Trap::FetchOut => b"FetchOut",
        Trap::Misaligned => b"Misaligned",
        Trap::LoadOut => b"LoadOut",
        Trap::StoreOut => b"StoreOut",
        Trap::Break => b"Break",
    }
}

/// The name of a park cause.
pub fn park_text(cause: Park) -> &'static [u8]
    ensures { result.now ≡ park_name cause }
{
    match cause {
        Park::Exit => b"Exit",
        Park::Fault => b"Fault",
        Park::Regions => b"Regions",
        Park::LogFull => b"LogFull",
        Park::Store => b"Store",
    }
}
