//! What an instruction does to marks, which is known before it is made.

ghost use Rattle.std.specs.Prelude.{◌≡◌, false};
ghost use Rattle.use_marks.specs.declared.passage.MarkChange.TheVariants as to;

use crate::read_mark::ReadMark;
use spec_base::Reg;

/// What an instruction changes of the marks when it completes.
#[derive(Clone, Copy, Debug)]
pub enum MarkChange {
    /// Nothing.
    None,
    /// A register is marked or cleared, unless it is x0.
    Register {
        rd: Reg,
        marked: bool,
    },
    /// So many bytes from an address on are marked or cleared.
    Bytes {
        address: u64,
        count: u64,
        marked: bool,
    },
    /// A call is made, of which this is told of its read: it clears x10.
    Call(ReadMark),
}

/// An instruction, by what it does to the marks when it completes.
#[derive(Clone, Copy, Debug)]
pub struct Passage {
    /// Whether it uses a marked value.
    pub used: bool,
    /// What it changes.
    pub change: MarkChange,
}

// An instruction that uses no mark, and marks or clears a register.
pub(crate) fn unused(rd: Reg, marked: bool) -> Passage
    ensures used { result.used ≡ false }
    ensures change { result.change ≡ to.Register rd marked }
{
    Passage {
        used: false,
        change: MarkChange::Register { rd, marked },
    }
}
