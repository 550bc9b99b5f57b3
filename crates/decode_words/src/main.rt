//! Says of each word on standard input, a decimal number a line, whether it is an instruction.
#![tactic(auto)]

ghost use Rattle.std.specs.Prelude.{◌≢◌, ◌↔◌, IsTrue};
ghost use Rattle.rv_decode.specs.Instruction.{instr_of};

use rv_decode::{Instr, decode};
use std::io;

/// Whether a word is an instruction of RV64IM or a gate instruction.
fn is_instruction(word: u32) -> bool
    ensures { IsTrue result ↔ instr_of word ≢ Instr.Illegal }
{
    decode(word) != Instr::Illegal
}

fn main(rt: HostRuntime) -> io::Result<()> {
    for line in rt.lines(rt.alloc()) {
        let verdict = match line?.as_str().parse::<u32>() {
            Ok(word) if is_instruction(word) => "legal",
            Ok(_) => "illegal",
            Err(_) => "no word",
        };
        println!(rt; "{verdict}")?;
    }
    Ok(())
}
