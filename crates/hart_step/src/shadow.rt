//! Many steps of a shadow hart.

ghost use Rattle.std.specs.Prelude.{◌≡◌, ◌≢◌, ◌≤◌};
ghost use Rattle.hart_mem.specs.Held.{space_of, spare_of};
ghost use Rattle.hart_mem.specs.Operation.{instr_of_operation};
ghost use Rattle.hart_step.specs.Core.{core_of};
ghost use Rattle.hart_step.specs.Flows.{core_at};
ghost use Rattle.hart_step.specs.ShadowSteps.{ShadowStepsTo};
ghost use Rattle.hart_step.specs.Step.{effect_of, effect_here};
ghost use Rattle.hart_step.specs.Strides.{Comes, is_store, stride_of};

use crate::event::Event;
use crate::flow::Flow;
use crate::hart::Hart;
use crate::stepping::execute;
use hart_mem::{Mem, Operation};
use spec_base::{Trap, View};

/// What a step of a shadow hart comes to, whose pc is kept apart while it goes on.
#[derive(Clone, Copy)]
pub(crate) enum Stride {
    /// The instruction is completed, and the next one is at this pc.
    Pass(u64),
    /// As `Pass`, and a look is due.
    Look(u64),
    /// It tells this, which isn't `Done`, and the hart's own pc is where it stands.
    Stop(Event),
}

// Whether an operation stores.
#[inline(always)]
fn is_store(operation: &Operation) -> bool
    ensures { result ≡ is_store (instr_of_operation operation.now) }
{
    matches!(
        operation,
        Operation::Sb(..) | Operation::Sh(..) | Operation::Sw(..) | Operation::Sd(..)
    )
}

/// Makes at most `most` steps of a hart in the shadow's view: up to the first that tells something
/// else than `Done`, and no further than one behind which a look is due. That is one that stores, or one
/// that leads to word 1 of a block. Answers how many completed, and what the first told that didn't: `Done`
/// where each did.
pub fn shadow_steps(hart: &mut Hart, mem: &mut Mem, most: u64) -> (u64, Event)
    requires shadow { (core_of hart.old).view ≡ View.Shadow }
    ensures most { result.0 ≤ most }
    ensures steps { ShadowStepsTo most result.0 result.1 (core_of hart.old) (space_of mem.old) (core_of hart.new) (space_of mem.new) }
    ensures view { (core_of hart.new).view ≡ View.Shadow }
    ensures spare { spare_of mem.new ≡ spare_of mem.old }
    ensures never { result.1 ≢ Event.NoMemory }
    ensures memory { result.1 ≢ Event.Done → space_of mem.new ≡ space_of mem.old }
{
    let mut pc = hart.pc();
    for done in 0..most {
        match step_shadow(hart, mem, pc) {
            Stride::Pass(next) => pc = next,
            Stride::Look(next) => {
                hart.set_pc(next);
                return (done + 1, Event::Done);
            }
            Stride::Stop(told) => return (done, told),
        }
    }
    hart.set_pc(pc);
    (most, Event::Done)
}

// Makes one step of a shadow hart whose pc is kept apart.
#[inline(always)]
fn step_shadow(hart: &mut Hart, mem: &mut Mem, pc: u64) -> Stride
    requires { (core_of hart.old).view ≡ View.Shadow }
    ensures comes { Comes result mem.old (effect_here (core_at (core_of hart.old) pc) (space_of mem.old)) (core_at (core_of hart.old) pc) (space_of mem.old) (core_of hart.new) (space_of mem.new) }
    ensures view { (core_of hart.new).view ≡ View.Shadow }
    ensures spare { spare_of mem.new ≡ spare_of mem.old }
{
    match mem.operation_at(View::Shadow, pc) {
        Some(operation) => execute_shadow(hart, mem, pc, operation),
        None => {
            hart.set_pc(pc);
            Stride::Stop(Event::Trap(Trap::FetchOut))
        }
    }
}

// As `step_shadow`, by the operation at pc.
#[inline(always)]
fn execute_shadow(hart: &mut Hart, mem: &mut Mem, pc: u64, operation: Operation) -> Stride
    requires { (core_of hart.old).view ≡ View.Shadow }
    ensures comes { Comes result mem.old (effect_of (core_at (core_of hart.old) pc) (space_of mem.old) (instr_of_operation operation)) (core_at (core_of hart.old) pc) (space_of mem.old) (core_of hart.new) (space_of mem.new) }
    ensures view { (core_of hart.new).view ≡ View.Shadow }
    ensures spare { spare_of mem.new ≡ spare_of mem.old }
{
    let stores = is_store(&operation);
    stride_of(execute::<5>(hart, mem, View::Shadow, pc, operation), stores)
}

// What an instruction comes to, by whether it stores.
#[inline(always)]
fn stride_of(flow: Flow, stores: bool) -> Stride
    ensures { result ≡ stride_of flow stores }
{
    match flow {
        Flow::Next(pc) => {
            if stores || pc % 64 == 4 {
                Stride::Look(pc)
            } else {
                Stride::Pass(pc)
            }
        }
        Flow::Stop(told) => Stride::Stop(told),
    }
}
