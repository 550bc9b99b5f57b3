//! What the call in a hart's registers does.

ghost use Rattle.std.specs.Prelude.{◌≡◌, ◌<◌};
ghost use Rattle.spec_base.specs.Word.{word_of_int};
ghost use Rattle.spec_base.specs.declared.note.Note.TheVariants as note;
ghost use Rattle.rv_model.specs.Registers.{reg};
ghost use Rattle.rv_model.specs.Rights.{is_data};
ghost use Rattle.program_model.specs.Calls.{key_of};
ghost use Rattle.hart_mem.specs.Held.{space_of};
ghost use Rattle.hart_step.specs.Core.{core_of};
ghost use Rattle.file_calls.specs.Plans.{plan_shown, made, PlanBounds, PlanKeepsBreak, IsOnData};
ghost use Rattle.runner_parts.specs.Plans.{plan_in_copies, plan_in_data};

use cow_regions::Shadowed;
use file_calls::{Files, PlannedCall};
use hart_mem::Mem;
use hart_step::Hart;
use spec_base::{Note, Reg};

/// A register by its number.
pub fn argument(hart: &Hart, number: u32) -> u64
    requires { number < 32 }
    ensures { result ≡ reg (core_of hart.now).registers number }
{
    hart.reg(Reg::from_low_bits(number))
}

/// The 64 bits of an answer.
pub fn word_of(value: &i64) -> u64
    ensures { result ≡ word_of_int value.now }
{
    let value = *value;
    value.cast_unsigned()
}

/// What is told of the call in the registers, with its answer.
pub fn call_note(hart: &Hart, value: &i64) -> Note
    ensures { result ≡ note.Call (reg (core_of hart.now).registers 17) (reg (core_of hart.now).registers 10) (reg (core_of hart.now).registers 11) (reg (core_of hart.now).registers 12) value.now }
{
    Note::Call {
        number: argument(hart, 17),
        a0: argument(hart, 10),
        a1: argument(hart, 11),
        a2: argument(hart, 12),
        answer: *value,
    }
}

/// The plan of the call in the registers, over the bytes that the shadow sees.
pub fn plan_of_shadow(hart: &Hart, files: &Files, mem: &Mem) -> PlannedCall
    ensures plan { plan_shown (reg (core_of hart.now).registers 10) (made files.now result) ≡ plan_in_copies (space_of mem.now) files.now (core_of hart.now).registers }
    ensures bounds { PlanBounds files.now (reg (core_of hart.now).registers 10) (made files.now result) }
    ensures data { IsOnData (is_data (space_of mem.now).layout) (made files.now result) }
    ensures kept { PlanKeepsBreak files.now result }
{
    let arguments = [argument(hart, 10), argument(hart, 11), argument(hart, 12)];
    files.planned(argument(hart, 17), arguments, &Shadowed::new(mem))
}

/// The key of that call.
pub fn key_of_shadow(hart: &Hart, files: &Files, mem: &Mem) -> u64
    ensures { result ≡ key_of (plan_in_copies (space_of mem.now) files.now (core_of hart.now).registers) }
{
    let arguments = [argument(hart, 10), argument(hart, 11), argument(hart, 12)];
    files.key(argument(hart, 17), arguments, &Shadowed::new(mem))
}

/// The plan of the own hart's call, over the program's data.
pub fn plan_of_own(hart: &Hart, files: &Files, mem: &Mem) -> PlannedCall
    ensures plan { plan_shown (reg (core_of hart.now).registers 10) (made files.now result) ≡ plan_in_data (space_of mem.now) files.now (core_of hart.now).registers }
    ensures bounds { PlanBounds files.now (reg (core_of hart.now).registers 10) (made files.now result) }
    ensures data { IsOnData (is_data (space_of mem.now).layout) (made files.now result) }
    ensures kept { PlanKeepsBreak files.now result }
{
    let arguments = [argument(hart, 10), argument(hart, 11), argument(hart, 12)];
    files.planned(argument(hart, 17), arguments, mem)
}

/// The key of that call.
pub fn key_of_own(hart: &Hart, files: &Files, mem: &Mem) -> u64
    ensures { result ≡ key_of (plan_in_data (space_of mem.now) files.now (core_of hart.now).registers) }
{
    let arguments = [argument(hart, 10), argument(hart, 11), argument(hart, 12)];
    files.key(argument(hart, 17), arguments, mem)
}
