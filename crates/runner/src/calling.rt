//! The calls that the shadow assumes.

ghost use Rattle.std.specs.Prelude.{◌≡◌, ◌<◌, ◌≤◌, ◌^◌, pos, Bool, [], IsTrue, Some, true, false, length};
ghost use Rattle.spec_base.specs.Files.{Files as AllFiles};
ghost use Rattle.rv_model.specs.Memory.{all_from};
ghost use Rattle.rv_model.specs.Registers.{reg};
ghost use Rattle.rv_model.specs.Rights.{is_data};
ghost use Rattle.program_model.specs.Calls.{Look as Looks, opened, after_read, bytes_read};
ghost use Rattle.program_model.specs.PlainRun.{size_in};
ghost use Rattle.code_model.specs.Tables.{AreConsistent};
ghost use Rattle.run_model.specs.Run.{World, Run};
ghost use Rattle.run_model.specs.ShadowMoves.{assumed_with, fill, hint_given, look_assumed};
ghost use Rattle.mark_laws.specs.Sizes.{TrueSizes};
ghost use Rattle.hart_mem.specs.Held.{space_of};
ghost use Rattle.hart_step.specs.Core.{core_of};
ghost use Rattle.file_calls.specs.Plans.{plan_shown, made, changed, KeepsBreak, PlanKeepsBreak, PlanBounds, ReadBounds, IsOnData};
ghost use Rattle.runner_parts.specs.Counts.{AreBelow};
ghost use Rattle.runner_parts.specs.Plans.{plan_in_copies};
ghost use Rattle.runner.specs.ShadowGoes.{Assumes};
ghost use Rattle.runner.specs.Shows.{Shows};

use crate::runner::Runner;
use file_calls::errno::ENOENT;
use file_calls::{Change, PlannedCall};
use runner_parts::{fill_held, hint_blocks, plan_of_shadow, word_of};
use spec_base::{Name, Note, Park, ReadSpot, Reg};
use world_io::{Look, Store};

impl Runner {
    // The call is assumed with this answer, and the descriptors stay.
    fn assume_answer(&mut self, value: &i64)
        ensures shows { (w : World) (r : Run) → Shows self.old w r → Shows self.new w (assumed_with r (r.shadow.files, value.now)) }
        ensures counts { self.new.counts ≡ self.old.counts }
        ensures end { self.new.end ≡ self.old.end }
    {
        self.shadow.answer(Reg::from_low_bits(10), word_of(value));
    }

    // The call is assumed with this change and this answer.
    fn assume_change(&mut self, change: &Change, value: &i64)
        requires kept { KeepsBreak self.old.shadow_files change.now }
        ensures shows { (w : World) (r : Run) → Shows self.old w r → TrueSizes w.files (changed self.old.shadow_files change.now)
            → Shows self.new w (assumed_with r (changed self.old.shadow_files change.now, value.now)) }
        ensures counts { self.new.counts ≡ self.old.counts }
        ensures end { self.new.end ≡ self.old.end }
    {
        self.shadow_files.make(*change);
        self.shadow.answer(Reg::from_low_bits(10), word_of(value));
    }

    // The call is assumed with this count, and the descriptors stay.
    fn assume_count(&mut self, count: usize)
        requires { count ≤ 65536 }
        ensures shows { (w : World) (r : Run) → Shows self.old w r → Shows self.new w (assumed_with r (r.shadow.files, pos count)) }
        ensures counts { self.new.counts ≡ self.old.counts }
        ensures end { self.new.end ≡ self.old.end }
    {
        self.assume_answer(&(count as i64));
    }

    // A look was answered.
    fn assume_found(&mut self, name: &Name, size: u64)
        requires { size < 2 ^ 56 }
        ensures shows { (w : World) (r : Run) → Shows self.old w r → TrueSizes w.files (opened r.shadow.files name.now (Some size)).0
            → Shows self.new w (assumed_with r (opened r.shadow.files name.now (Some size))) }
        ensures counts { self.new.counts ≡ self.old.counts }
        ensures end { self.new.end ≡ self.old.end }
    {
        let after = self.shadow_files.found(*name, size);
        self.assume_change(&after.0, &after.1);
    }

    // An open is assumed: one look.
    fn assume_look<D: Store>(&mut self, name: &Name, store: &mut D)
        ensures looks { (unhinted : Bool) → Assumes self.old self.new unhinted (Looks name.now) (D.state store.old) (D.state store.new) }
        ensures counts { self.new.counts ≡ self.old.counts }
        ensures end { self.new.end ≡ self.old.end }
        ensures later { (D.state store.old).faults ≤ (D.state store.new).faults }
    {
        match store.look(name) {
            Look::Found(size) => self.assume_found(name, size),
            Look::Absent => self.assume_answer(&ENOENT),
            Look::Failed => self.park(Park::Store),
        }
    }

    // HCALL 0 gives a read as a hint.
    fn give_hint(&mut self, spot: &ReadSpot)
        requires few { self.old.counts.hints < self.old.counts.moves }
        requires offset { spot.now.offset < 2 ^ 56 }
        requires count { spot.now.count ≤ 65536 }
        ensures shows { (w : World) (r : Run) → Shows self.old w r → Shows self.new w (hint_given false spot.now r) }
        ensures told { length self.new.notes ≡ 1 }
        ensures kept { (self.new.mem ≡ self.old.mem) × (self.new.shadow ≡ self.old.shadow) × (self.new.shadow_files ≡ self.old.shadow_files) }
        ensures counts { (self.new.counts.shadow_since ≡ self.old.counts.shadow_since) × (self.new.counts.moves ≡ self.old.counts.moves) }
        ensures end { self.new.end ≡ self.old.end }
    {
        hint_blocks(&mut self.cache, spot);
        self.counts.hint();
        self.notes.set(Note::Hint(*spot));
    }

    // It does so unless it is HCALL 1.
    fn hint_unless(&mut self, unhinted: bool, spot: &ReadSpot)
        requires few { self.old.counts.hints < self.old.counts.moves }
        requires offset { spot.now.offset < 2 ^ 56 }
        requires count { spot.now.count ≤ 65536 }
        requires quiet { self.old.notes ≡ [] }
        ensures shows { (w : World) (r : Run) → Shows self.old w r → Shows self.new w (hint_given unhinted spot.now r) }
        ensures told { length self.new.notes < 2 }
        ensures kept { (self.new.mem ≡ self.old.mem) × (self.new.shadow ≡ self.old.shadow) × (self.new.shadow_files ≡ self.old.shadow_files) }
        ensures counts { (self.new.counts.shadow_since ≡ self.old.counts.shadow_since) × (self.new.counts.moves ≡ self.old.counts.moves) }
        ensures end { self.new.end ≡ self.old.end }
    {
        if !unhinted {
            self.give_hint(spot);
        }
    }

    // A read of some bytes is filled where its blocks are cached and its new regions fit.
    fn fill_some(&mut self, spot: &ReadSpot, address: u64)
        requires some { 0 < spot.now.count }
        requires offset { spot.now.offset < 2 ^ 56 }
        requires count { spot.now.count ≤ 65536 }
        requires data { IsTrue (all_from (is_data (space_of self.old.mem).layout) address spot.now.count) }
        requires told { length self.old.notes < 2 }
        ensures shows { (w : World) (r : Run) → Shows self.old w r → length (bytes_read w.files spot.now) ≡ spot.now.count → AreConsistent w.image.layout r.shared
            → Shows self.new w (fill w spot.now address r) }
        ensures kept { (self.new.shadow ≡ self.old.shadow) × (self.new.shadow_files ≡ self.old.shadow_files) × (self.new.counts ≡ self.old.counts) }
        ensures end { self.new.end ≡ self.old.end }
    {
        fill_held(
            &self.cache,
            &mut self.mem,
            &mut self.notes,
            spot,
            address,
            &mut self.filling,
        );
    }

    // A read is filled where that can be.
    fn fill_assumed(&mut self, spot: &ReadSpot, address: u64)
        requires offset { spot.now.offset < 2 ^ 56 }
        requires count { spot.now.count ≤ 65536 }
        requires data { IsTrue (all_from (is_data (space_of self.old.mem).layout) address spot.now.count) }
        requires told { length self.old.notes < 2 }
        ensures shows { (w : World) (r : Run) → Shows self.old w r → length (bytes_read w.files spot.now) ≡ spot.now.count → AreConsistent w.image.layout r.shared
            → Shows self.new w (fill w spot.now address r) }
        ensures kept { (self.new.shadow ≡ self.old.shadow) × (self.new.shadow_files ≡ self.old.shadow_files) × (self.new.counts ≡ self.old.counts) }
        ensures end { self.new.end ≡ self.old.end }
    {
        if spot.count != 0 {
            self.fill_some(spot, address);
        }
    }

    // A read is answered with its count, and the offset moves on.
    fn answer_assumed(&mut self, spot: &ReadSpot)
        requires bounds { ReadBounds self.old.shadow_files (reg (core_of self.old.shadow).registers 10) spot.now }
        ensures shows { (w : World) (r : Run) → Shows self.old w r → TrueSizes w.files (after_read r.shadow.files (reg r.shadow.registers 10) spot.now.count)
            → Shows self.new w (assumed_with r (after_read r.shadow.files (reg r.shadow.registers 10) spot.now.count, pos spot.now.count)) }
        ensures counts { self.new.counts ≡ self.old.counts }
        ensures end { self.new.end ≡ self.old.end }
    {
        let descriptor = self.shadow.reg(Reg::from_low_bits(10));
        self.shadow_files.read_on(descriptor, spot.count);
        self.assume_count(spot.count as usize);
    }

    // A read is assumed: given as a hint, filled, and answered.
    fn assume_read(&mut self, unhinted: bool, spot: &ReadSpot, address: u64)
        requires few { self.old.counts.hints < self.old.counts.moves }
        requires bounds { ReadBounds self.old.shadow_files (reg (core_of self.old.shadow).registers 10) spot.now }
        requires data { IsTrue (all_from (is_data (space_of self.old.mem).layout) address spot.now.count) }
        requires quiet { self.old.notes ≡ [] }
        ensures shows { (w : World) (r : Run) → Shows self.old w r → length (bytes_read w.files spot.now) ≡ spot.now.count → AreConsistent w.image.layout r.shared
            → TrueSizes w.files (after_read r.shadow.files (reg r.shadow.registers 10) spot.now.count)
            → Shows self.new w (assumed_with (fill w spot.now address (hint_given unhinted spot.now r)) (after_read r.shadow.files (reg r.shadow.registers 10) spot.now.count, pos spot.now.count)) }
        ensures counts { (self.new.counts.shadow_since ≡ self.old.counts.shadow_since) × (self.new.counts.moves ≡ self.old.counts.moves) }
        ensures end { self.new.end ≡ self.old.end }
    {
        self.hint_unless(unhinted, spot);
        self.fill_assumed(spot, address);
        self.answer_assumed(spot);
    }

    // A planned call is assumed.
    fn assume<D: Store>(&mut self, unhinted: bool, plan: &PlannedCall, store: &mut D)
        requires few { self.old.counts.hints < self.old.counts.moves }
        requires bounds { PlanBounds self.old.shadow_files (reg (core_of self.old.shadow).registers 10) (made self.old.shadow_files plan.now) }
        requires data { IsOnData (is_data (space_of self.old.mem).layout) (made self.old.shadow_files plan.now) }
        requires kept { PlanKeepsBreak self.old.shadow_files plan.now }
        requires quiet { self.old.notes ≡ [] }
        ensures assumes { Assumes self.old self.new unhinted (plan_shown (reg (core_of self.old.shadow).registers 10) (made self.old.shadow_files plan.now)) (D.state store.old) (D.state store.new) }
        ensures counts { (self.new.counts.shadow_since ≡ self.old.counts.shadow_since) × (self.new.counts.moves ≡ self.old.counts.moves) }
        ensures end { self.new.end ≡ self.old.end }
        ensures later { (D.state store.old).faults ≤ (D.state store.new).faults }
    {
        match plan {
            PlannedCall::Set(change, value) => self.assume_change(change, value),
            PlannedCall::Open(name) => self.assume_look(name, store),
            PlannedCall::Read(spot, address) => self.assume_read(unhinted, spot, *address),
            PlannedCall::Write(_, _, count) => self.assume_count(*count),
            PlannedCall::Exit(_) => self.park(Park::Exit),
        }
    }

    // The call in the registers is assumed.
    pub(crate) fn shadow_call<D: Store>(&mut self, unhinted: bool, store: &mut D)
        requires few { self.old.counts.hints < self.old.counts.moves }
        requires quiet { self.old.notes ≡ [] }
        ensures assumes { Assumes self.old self.new unhinted (plan_in_copies (space_of self.old.mem) self.old.shadow_files (core_of self.old.shadow).registers) (D.state store.old) (D.state store.new) }
        ensures counts { (self.new.counts.shadow_since ≡ self.old.counts.shadow_since) × (self.new.counts.moves ≡ self.old.counts.moves) }
        ensures end { self.new.end ≡ self.old.end }
        ensures later { (D.state store.old).faults ≤ (D.state store.new).faults }
    {
        let plan = plan_of_shadow(&self.shadow, &self.shadow_files, &self.mem);
        self.assume(unhinted, &plan, store);
    }
}
