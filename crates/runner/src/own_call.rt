//! HCALL 0 of the own hart.

ghost use Rattle.std.specs.Prelude.{◌≡◌, ◌≤◌, false, None};
ghost use Rattle.hart_mem.specs.Held.{spare_of, space_of};
ghost use Rattle.rv_model.specs.Registers.{reg};
ghost use Rattle.rv_model.specs.Rights.{is_data};
ghost use Rattle.hart_step.specs.Core.{core_of};
ghost use Rattle.file_calls.specs.Plans.{plan_shown, made, PlanBounds, PlanKeepsBreak, IsOnData};
ghost use Rattle.runner_parts.specs.Counts.{AreBelow};
ghost use Rattle.runner_parts.specs.Plans.{plan_in_data};
ghost use Rattle.runner.specs.Causes.{IsCaused};
ghost use Rattle.runner.specs.OwnGoes.{Performs};

use crate::runner::Runner;
use file_calls::PlannedCall;
use runner_parts::plan_of_own;
use world_io::{Sink, Store};

impl Runner {
    // A planned call is performed, or waits.
    fn perform<D: Store, O: Sink, E: Sink>(
        &mut self,
        plan: &PlannedCall,
        store: &mut D,
        out: &mut O,
        err: &mut E,
    )
        requires begun { AreBelow self.old.counts }
        requires quiet { self.old.text ≡ 0 }
        requires on { self.old.end ≡ None }
        requires goes { self.old.stalled ≡ false }
        requires spare { 17 ≤ spare_of self.old.mem }
        requires bounds { PlanBounds self.old.own_files (reg (core_of self.old.own).registers 10) (made self.old.own_files plan.now) }
        requires data { IsOnData (is_data (space_of self.old.mem).layout) (made self.old.own_files plan.now) }
        requires kept { PlanKeepsBreak self.old.own_files plan.now }
        ensures performs { Performs self.old self.new (plan_shown (reg (core_of self.old.own).registers 10) (made self.old.own_files plan.now))
            (record { store = D.state store.old; out = O.state out.old; err = E.state err.old }) (record { store = D.state store.new; out = O.state out.new; err = E.state err.new }) }
        ensures moves { self.new.counts.moves ≡ self.old.counts.moves }
        ensures caused { IsCaused self.new.end (record { store = D.state store.old; out = O.state out.old; err = E.state err.old }) (record { store = D.state store.new; out = O.state out.new; err = E.state err.new }) }
    {
        match plan {
            PlannedCall::Set(change, value) => self.own_set(change, value),
            PlannedCall::Open(name) => {
                self.own_look(name, store);
            }
            PlannedCall::Read(spot, address) => self.own_read(spot, *address),
            PlannedCall::Write(to_out, address, count) => {
                self.own_write(*to_out, *address, *count, out, err);
            }
            PlannedCall::Exit(code) => self.own_exit(*code),
        }
    }

    // HCALL 0: the planned call is performed, or waits.
    pub(crate) fn own_call<D: Store, O: Sink, E: Sink>(
        &mut self,
        store: &mut D,
        out: &mut O,
        err: &mut E,
    )
        requires begun { AreBelow self.old.counts }
        requires quiet { self.old.text ≡ 0 }
        requires on { self.old.end ≡ None }
        requires goes { self.old.stalled ≡ false }
        requires spare { 17 ≤ spare_of self.old.mem }
        ensures performs { Performs self.old self.new (plan_in_data (space_of self.old.mem) self.old.own_files (core_of self.old.own).registers)
            (record { store = D.state store.old; out = O.state out.old; err = E.state err.old }) (record { store = D.state store.new; out = O.state out.new; err = E.state err.new }) }
        ensures moves { self.new.counts.moves ≡ self.old.counts.moves }
        ensures caused { IsCaused self.new.end (record { store = D.state store.old; out = O.state out.old; err = E.state err.old }) (record { store = D.state store.new; out = O.state out.new; err = E.state err.new }) }
    {
        let plan = plan_of_own(&self.own, &self.own_files, &self.mem);
        self.perform(&plan, store, out, err)
    }
}
