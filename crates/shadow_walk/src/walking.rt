//! The shadow goes from block to block.

ghost use Rattle.std.specs.Prelude.{◌≡◌, IsTrue};
ghost use Rattle.spec_base.specs.Layout.{is_lawful};
ghost use Rattle.spec_base.specs.declared.machine.View.TheVariants.{Shadow};
ghost use Rattle.hart_mem.specs.Held.{space_of, spare_of};
ghost use Rattle.hart_step.specs.Core.{core_of};
ghost use Rattle.run_model.specs.ShadowMoves.{is_arrival};
ghost use Rattle.shadow_walk.specs.Walks.{BlockIsOneInstruction};
ghost use Rattle.shadow_walk.specs.Restarts.{GoesAnew, GoesOnward, GoesBack};

use crate::moves::advance;
use hart_mem::Mem;
use hart_step::{Event, Hart};
use spec_base::{HELPERS_START, Layout, Park, SHADOW_START};

/// Where a shadow has come, and how many words it has executed on the way.
#[derive(Clone, Copy, Debug, PartialEq, Eq)]
pub enum Walked {
    /// It is at word 1 of a block.
    Arrived(u32),
    /// It is parked, by the last of these words.
    Parked(Park, u32),
    /// It is at an HCALL, which isn't counted. True for HCALL 1.
    Call(bool, u32),
}

/// The most words of a walk: 72 from a restart on, 5 more for each region in use, of at most 65,536.
const MOST_WORDS: u32 = 72 + 5 * 65_536;

/// Steps a hart in the shadow's view up to the next arrival, park or call: from word 1 of a block
/// through its instruction, from the first word of RESTART to its call, or from the word behind an
/// HCALL to the block behind the call. An HKEY gets `key`. None where a word traps or too many are
/// executed, which no code of a rewritten program does.
///
/// From word 1 of an instruction's block on, where `key` is that of the call in the registers, the
/// walk is one instruction of the program, by 227 words at most. It parks by Fault exactly where the
/// program traps or jumps out of its text, by LogFull exactly at a call with a key where 64 pairs
/// wait, and by Regions only at a store whose region has no copy, with all slots in use. From
/// RESTART's first word it takes 63 words at most and 5 for each region in use. From an HCALL on it
/// takes 19, and parks, by Fault, exactly where the place behind a restart is the text's end.
pub fn walk(hart: &mut Hart, mem: &mut Mem, layout: &Layout, key: u64) -> Option<Walked>
    requires shadow { (core_of hart.old).view ≡ Shadow }
    requires lawful { IsTrue (is_lawful layout.now) }
    ensures view { (core_of hart.new).view ≡ Shadow }
    ensures spare { spare_of mem.new ≡ spare_of mem.old }
    ensures block { BlockIsOneInstruction layout.now key result (core_of hart.old) (space_of mem.old) (core_of hart.new) (space_of mem.new) }
    ensures anew { GoesAnew layout.now result (core_of hart.old) (space_of mem.old) (core_of hart.new) (space_of mem.new) }
    ensures onward { GoesOnward layout.now result (core_of hart.old) (space_of mem.old) (core_of hart.new) (space_of mem.new) }
    ensures back { GoesBack layout.now result (core_of hart.old) (space_of mem.old) (core_of hart.new) (space_of mem.new) }
{
    for words in 1..=MOST_WORDS {
        match &advance(hart, mem) {
            Event::Done => {}
            Event::Key(rd) => hart.answer(*rd, key),
            Event::Park(cause) => return Some(Walked::Parked(*cause, words)),
            Event::Call(unhinted) => return Some(Walked::Call(*unhinted, words - 1)),
            _ => return None,
        }
        if is_arrival(layout, hart.pc()) {
            return Some(Walked::Arrived(words));
        }
    }
    None
}

/// Whether this is word 1 of a block, the guard block included.
fn is_arrival(layout: &Layout, pc: u64) -> bool
    requires { IsTrue (is_lawful layout.now) }
    ensures { result ≡ is_arrival layout.now pc }
{
    pc < HELPERS_START
        && SHADOW_START <= pc
        && pc <= SHADOW_START + 16 * (layout.text_end - layout.text_start) + 4
        && pc % 64 == 4
}
