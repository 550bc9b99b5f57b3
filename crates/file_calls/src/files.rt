//! The file descriptors of a program, and its break.

ghost use Rattle.std.specs.List.{position_from};
ghost use Rattle.std.specs.Prelude.{◌≡◌, ◌≤◌, ◌<◌, ◌^◌, length, IfSome};
ghost use Rattle.program_model.specs.Calls as calls;
ghost use Rattle.program_model.specs.Descriptors.{Free, slot, with_slot, start_of, lowest_free};
ghost use Rattle.file_calls.specs.Plans.{changed, KeepsBreak};
ghost use Rattle.file_calls.specs.Shown.{shown, is_free};

use crate::change::Change;
use crate::descriptor::Descriptor;
use std::marker::Model;

/// The 32 file descriptors of a program, and its break. A contract sees them as the definition's
/// `Descriptors`.
#[derive(Clone, Copy, Debug)]
pub struct Files {
    slots: [Descriptor; 32],
    break_at: u64,
    break_start: u64,
    break_most: u64,
}

impl Model for Files {
    ghost use Rattle.std.specs.Prelude.{ℕ, ◌≤◌, ◌<◌, ◌^◌, map};
    ghost use Rattle.program_model.specs.Descriptors.{Descriptors};

    ghost Value = { Descriptors };

    ghost use Rattle.file_calls.specs.Shown.{shown, slot_of, slots_of-shown};

    ghost view = { λ f. record { slots = map shown f.slots; break_at = f.break_at; break_start = f.break_start; break_most = f.break_most } };

    ghost invariant = { λ f. (f.break_at ≤ f.break_most) × (f.break_most < 2 ^ 63) };

    ghost inverse = { λ v. record { slots = map slot_of v.slots; break_at = v.break_at; break_start = v.break_start; break_most = v.break_most } };

    ghost inverse_ok = { λ f h. λ i. record { slots = slots_of-shown f.slots i; break_at = f.break_at; break_start = f.break_start; break_most = f.break_most } };
}

impl Files {
    /// The descriptors at the start: 0 gives and takes nothing, 1 is standard output, 2 is standard
    /// error, and the others are free. The break stands at `break_start`.
    pub fn new(break_start: u64, break_most: u64) -> Files
        requires order { break_start ≤ break_most }
        requires small { break_most < 2 ^ 63 }
        ensures { result ≡ start_of break_start break_most }
    {
        let mut slots = [Descriptor::Free; 32];
        slots[0] = Descriptor::Null;
        slots[1] = Descriptor::Out;
        slots[2] = Descriptor::Err;
        Files {
            slots,
            break_at: break_start,
            break_start,
            break_most,
        }
    }

    /// Descriptor `number`; one of 32 or more is free.
    pub(crate) fn slot(&self, number: u64) -> Descriptor
        ensures same { shown result ≡ slot self.now number }
        ensures past { 32 ≤ number → shown result ≡ Free }
    {
        match self.slots.get(number as usize) {
            Some(slot) => *slot,
            None => Descriptor::Free,
        }
    }

    // Changes this descriptor; there is none of 32 or more.
    fn set_slot(&mut self, number: u64, slot: Descriptor)
        ensures { self.new ≡ with_slot self.old number (shown slot) }
    {
        if number < 32 {
            self.slots[number as usize] = slot;
        }
    }

    /// Makes the change of a call, in place.
    pub fn make(&mut self, change: Change)
        requires { KeepsBreak self.old change }
        ensures { self.new ≡ changed self.old change }
    {
        match change {
            Change::Nothing => {}
            Change::Slot(number, slot) => self.set_slot(number, slot),
            Change::MoveBreak(to) => self.break_at = to,
        }
    }

    /// The lowest free descriptor.
    pub(crate) fn lowest_free(&self) -> Option<usize>
        ensures same { result ≡ lowest_free self.now.slots 0 }
        ensures below { IfSome result (λ number. number < 32) }
    {
        first_free(&self.slots)
    }

    /// The break moved to this address, if it may stand there, and the break after that.
    pub(crate) fn moved_break(&self, to: u64) -> (Change, i64)
        ensures plan { calls.Set (changed self.now result.0) result.1 ≡ calls.break_plan self.now to }
        ensures kept { KeepsBreak self.now result.0 }
    {
        if self.break_start <= to && to <= self.break_most {
            (Change::MoveBreak(to), to as i64)
        } else {
            (Change::Nothing, self.break_at as i64)
        }
    }
}

// The first free one.
fn first_free(slots: &[Descriptor]) -> Option<usize>
    ensures same { result ≡ position_from is_free 0 slots.now }
    ensures below { IfSome result (λ number. number < length slots.now) }
{
    slots.iter().position(|slot| slot.is_free())
}
