//! The calls of a program that runs by itself.

ghost use Rattle.std.specs.Prelude.{◌≡◌, ◌≤◌, length};
ghost use Rattle.rv_model.specs.Registers.{reg};
ghost use Rattle.program_model.specs.PlainRun.{State, Image as Program};
ghost use Rattle.program_model.specs.Calls.{call_plan};
ghost use Rattle.hart_mem.specs.Held.{space_of, spare_of, data_byte};
ghost use Rattle.hart_step.specs.Core.{core_of};
ghost use Rattle.rv_model.specs.Data.{data_in, memory_in};
ghost use Rattle.file_calls.specs.Plans.{plan_shown, made, PlanBounds, PlanKeepsBreak, IsOnData};
ghost use Rattle.plain_runner.specs.Runs.{Shows};
ghost use Rattle.plain_runner.specs.Turns.{IsAtCall, TurnsTo};

use crate::answering::{argument, settle};
use crate::ending::Ending;
use crate::opening::open;
use crate::reading::read;
use crate::writing::offer;
use file_calls::{Files, PlannedCall};
use hart_mem::Mem;
use hart_step::Hart;
use world_io::{Sink, Store};

/// What the call in the registers does before the store and the sinks are asked.
fn plan(hart: &Hart, mem: &Mem, files: &Files) -> PlannedCall
    ensures plan { plan_shown (reg (core_of hart.now).registers 10) (made files.now result) ≡ call_plan (data_in (data_byte (space_of mem.now))) (memory_in (data_byte (space_of mem.now))) files.now
        (reg (core_of hart.now).registers 17) (reg (core_of hart.now).registers 10) (reg (core_of hart.now).registers 11) (reg (core_of hart.now).registers 12) }
    ensures bounds { PlanBounds files.now (reg (core_of hart.now).registers 10) (made files.now result) }
    ensures data { IsOnData (data_in (data_byte (space_of mem.now))) (made files.now result) }
    ensures kept { PlanKeepsBreak files.now result }
{
    let arguments = [argument(hart, 10), argument(hart, 11), argument(hart, 12)];
    files.planned(argument(hart, 17), arguments, mem)
}

/// Performs the call that the registers ask for, with a buffer of 17 blocks. 17 pages are spare.
#[inline(never)]
pub fn perform<S: Store, O: Sink, E: Sink>(
    hart: &mut Hart,
    mem: &mut Mem,
    files: &mut Files,
    buffer: &mut [u8],
    store: &mut S,
    out: &mut O,
    err: &mut E,
) -> Option<Ending>
    requires spare { 17 ≤ spare_of mem.old }
    requires room { length buffer.old ≡ 69632 }
    ensures { (p : Program) (s : State) → Shows p (core_of hart.old) (space_of mem.old) files.old s → IsAtCall p s
        → TurnsTo p s (record { store = S.state store.old; out = O.state out.old; err = E.state err.old })
        result (core_of hart.new) (space_of mem.new) files.new (record { store = S.state store.new; out = O.state out.new; err = E.state err.new }) }
{
    let plan = plan(hart, mem, files);
    match &plan {
        PlannedCall::Set(change, value) => {
            settle(hart, files, change, value);
            None
        }
        PlannedCall::Open(name) => open(hart, files, name, store),
        PlannedCall::Read(spot, address) => read(hart, mem, files, buffer, spot, *address, store),
        PlannedCall::Write(to_out, address, count) => {
            offer(
                hart,
                mem,
                *to_out,
                *address,
                &mut buffer[..*count],
                out,
                err,
            )
        }
        PlannedCall::Exit(code) => Some(Ending::Exited(*code)),
    }
}
