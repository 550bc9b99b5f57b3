//! Words of the patched text.

ghost use Rattle.std.specs.Prelude.{◌≡◌};
ghost use Rattle.code_model.specs.Patch.{patched_word};
ghost use Rattle.elf_writer.specs.ProgramCode.{ungated_word};

const ECALL: u32 = 0x0000_0073;

/// Into the stub.
const HGATE: u32 = 0x0000_000B;

/// The opcode custom-0, which the gate instructions have.
const CUSTOM_0: u32 = 0b000_1011;

/// What a word of the original text is in the patched one: a call becomes a gate, a gate
/// instruction the word 0, which is illegal as it was, and each other word stays.
pub fn patch_word(word: u32) -> u32
    ensures { result ≡ patched_word word }
{
    if word == ECALL {
        HGATE
    } else if word & 0x7F == CUSTOM_0 {
        0
    } else {
        word
    }
}

/// What a word of a patched text stands for: a gate for the call that it was made from, and each
/// other word for itself.
pub fn ungate_word(word: u32) -> u32
    ensures { result ≡ ungated_word word }
{
    if word == HGATE { ECALL } else { word }
}
