//! The words of a text that a rewriting replaces.

ghost use Rattle.std.specs.Prelude.{◌≡◌, IsTrue, ◌↔◌, IfOk};
ghost use Rattle.site_finder.specs.Sites.{is_call as names_call, is_special as names_special, indices_of};

use crate::found::Sites;
use spec_base::NoMemory;
use std::alloc::Global;

/// The opcode custom-0, in the low seven bits of a word.
const CUSTOM_0: u32 = 0b0001011;

/// The word of ECALL.
const ECALL: u32 = 0x0000_0073;

/// The calls of a text, and its words of the opcode custom-0.
pub fn sites(alloc: Global, text: &[u32]) -> Result<Sites, NoMemory>
    ensures calls { IfOk result (λ sites. sites.calls.items ≡ indices_of names_call text.now) }
    ensures specials { IfOk result (λ sites. sites.specials.items ≡ indices_of names_special text.now) }
{
    let mut calls = Vec::new(alloc);
    let mut specials = Vec::new(alloc);
    for (at, &word) in text.iter().enumerate() {
        if is_call(word) {
            calls.push(at)?;
        }
        if is_special(word) {
            specials.push(at)?;
        }
    }
    Ok(Sites { calls, specials })
}

/// Whether the word is ECALL.
pub fn is_call(word: u32) -> bool
    ensures { result ≡ names_call word }
{
    word == ECALL
}

/// Whether the word is of the opcode custom-0.
pub fn is_special(word: u32) -> bool
    ensures { result ≡ names_special word }
{
    word & 0x7f == CUSTOM_0
}
