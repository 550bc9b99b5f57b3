//! Laying instructions into a block.

ghost use Rattle.std.specs.Prelude.{◌≡◌, ◌+◌, ◌≤◌, ◌++◌, [], length, map, take, drop};
ghost use Rattle.std.specs.List.{All};
ghost use Rattle.rv_decode.specs.Encoding.{word_of, IsEncodable};
ghost use Rattle.code_model.specs.Assembly as asm;
ghost use Rattle.code_model.specs.Blocks.{with_pad};

use assembler::place::X31;
use assembler::{ld, x};
use rv_decode::Instr;
use rv_encode::encode;

/// How many words a block has.
pub const BLOCK_WORDS: usize = 16;

/// The word that a block begins with, `ld x31, X31(x0)`. Jumps by register enter there, and behind
/// it all registers are the program's.
pub fn landing_pad() -> u32
    ensures { result ≡ word_of (asm.ld 31 asm.X31 0) }
{
    encode(&ld(x(31), X31, x(0)))
}

/// Writes the words of instructions over those from a place on.
fn lay(words: &mut [u32], at: usize, instrs: &[Instr])
    requires room { at + length instrs.now ≤ length words.old }
    requires encodable { All IsEncodable instrs.now }
    ensures { words.new ≡ take at words.old
        ++ (map word_of instrs.now ++ drop (at + length instrs.now) words.old) }
{
    for (i, instr) in instrs.iter().enumerate() {
        words[at + i] = encode(instr);
    }
}

/// The block of these instructions: the landing pad, then they, and the word 0 to the end.
pub fn block_of(instrs: &[Instr]) -> [u32; BLOCK_WORDS]
    requires room { length instrs.now ≤ 15 }
    requires encodable { All IsEncodable instrs.now }
    ensures { result ≡ map word_of (with_pad instrs.now) }
{
    block_of_both(instrs, &[])
}

/// The same of two lists, one behind the other.
pub fn block_of_both(first: &[Instr], rest: &[Instr]) -> [u32; BLOCK_WORDS]
    requires room { length first.now + length rest.now ≤ 15 }
    requires first { All IsEncodable first.now }
    requires rest { All IsEncodable rest.now }
    ensures { result ≡ map word_of (with_pad (first.now ++ rest.now)) }
{
    let mut words = [0; BLOCK_WORDS];
    words[0] = landing_pad();
    lay(&mut words, 1, first);
    lay(&mut words, 1 + first.len(), rest);
    words
}
