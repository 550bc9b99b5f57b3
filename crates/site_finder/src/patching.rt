//! The text with its calls and gate instructions replaced.

ghost use Rattle.std.specs.Prelude.{◌≡◌, ◌<◌, map, length, slice_set, fold};
ghost use Rattle.std.specs.List.{All};
ghost use Rattle.code_model.specs.Patch.{patched_word};
ghost use Rattle.site_finder.specs.Sites.{is_call as names_call, is_special as names_special, indices_of};

use crate::finding::{is_call, is_special};
use crate::found::Sites;

/// The word of HGATE, which enters the stub.
const HGATE: u32 = 0x0000_000B;

/// A word that is no instruction, and so is as illegal as a gate instruction is in a program.
const ILLEGAL: u32 = 0;

/// The word that a rewriting puts in the place of this one: HGATE for ECALL, 0 for a word of the
/// opcode custom-0, and the word itself for each other.
pub fn patched(word: u32) -> u32
    ensures { result ≡ patched_word word }
{
    if is_call(word) {
        HGATE
    } else if is_special(word) {
        ILLEGAL
    } else {
        word
    }
}

/// Replaces the words of a text, whose sites are given: each call by HGATE, each word of the
/// opcode custom-0 by 0. The others stay.
pub fn patch(text: &mut [u32], sites: &Sites)
    requires calls { sites.now.calls.items ≡ indices_of names_call text.old }
    requires specials { sites.now.specials.items ≡ indices_of names_special text.old }
    ensures { text.new ≡ map patched_word text.old }
{
    replace(text, &sites.calls, HGATE);
    replace(text, &sites.specials, ILLEGAL);
}

/// Puts this word at each of these places of a text.
fn replace(text: &mut [u32], places: &[usize], word: u32)
    requires { All (λ at. at < length text.old) places.now }
    ensures { text.new ≡ fold (λ words at. slice_set words at word) text.old places.now }
{
    for &at in places {
        text[at] = word;
    }
}
