//! The words of the own hart.

ghost use Rattle.std.specs.Prelude.{◌≡◌, ◌≤◌, false, None, Some};
ghost use Rattle.run_model.specs.Run.{World, Run, Answer};
ghost use Rattle.run_model.specs.OwnMoves.{own_in, own_wrote};
ghost use Rattle.program_model.specs.Calls.{key_of};
ghost use Rattle.program_model.specs.PlainRun.{plan_of};
ghost use Rattle.run_laws.specs.OwnLaws.{Accepted};
ghost use Rattle.hart_mem.specs.Held.{spare_of};
ghost use Rattle.hart_step.specs.Core.{core_of};
ghost use Rattle.word_laws.specs.OwnWords.{trapped};
ghost use Rattle.runner_parts.specs.Counts.{AreBelow};
ghost use Rattle.runner_parts.specs.Parts.{IsAtRest, own_side};
ghost use Rattle.plain_runner.specs.Runs.{Outside};
ghost use Rattle.runner.specs.Causes.{IsCaused};
ghost use Rattle.runner.specs.OwnGoes.{MakesOwnWord};
ghost use Rattle.runner.specs.Shows.{Shows};

use crate::runner::Runner;
use hart_step::{Event, step};
use runner_parts::{End, key_of_own};
use spec_base::{Note, Reg, ShadowState, Trap, View};
use world_io::{Sink, Store};

impl Runner {
    // The own hart's word traps.
    fn trap(&mut self, cause: Trap)
        requires goes { self.old.end ≡ None }
        ensures shows { (w : World) (r : Run) → Shows self.old w r → Shows self.new w (trapped r cause r.own.pc) }
        ensures moves { self.new.counts.moves ≡ self.old.counts.moves }
        ensures end { self.new.end ≡ Some (End.Trap cause (core_of self.old.own).pc) }
    {
        let pc = self.own.pc();
        self.stop(End::Trap(cause, pc), Note::Trap(cause, pc));
    }

    // A word of the program. Its store finds a spare page where it wants one.
    pub(crate) fn program_word(&mut self)
        requires begun { AreBelow self.old.counts }
        requires on { self.old.end ≡ None }
        requires program { (core_of self.old.own).view ≡ View.Program }
        requires spare { 1 ≤ spare_of self.old.mem }
        ensures shows { (w : World) (r : Run) (x : Answer) → Accepted w → Shows self.old w r → Shows self.new w (own_in View.Program w x r) }
        ensures moves { self.new.counts.moves ≡ self.old.counts.moves }
        ensures caused { (now : Outside) → IsCaused self.new.end now now }
    {
        match step(&mut self.own, &mut self.mem) {
            Event::Done => self.complete(),
            Event::Gate => self.asked = false,
            Event::Trap(cause) => self.trap(cause),
            // No other event comes.
            _ => {}
        }
    }

    // HKEY of the stub: the register gets the key of the planned call.
    fn own_key(&mut self, rd: Reg)
        ensures shows { (w : World) (r : Run) → Shows self.old w r → IsAtRest (own_side r) r.cache → Shows self.new w (own_wrote r rd (key_of (plan_of w.image.layout r.own))) }
        ensures moves { self.new.counts.moves ≡ self.old.counts.moves }
        ensures end { self.new.end ≡ self.old.end }
    {
        let key = key_of_own(&self.own, &self.own_files, &self.mem);
        self.own.answer(rd, key);
    }

    // A word of the stub. At HCALL 0 the planned call is performed, or waits.
    pub(crate) fn stub_word<D: Store, O: Sink, E: Sink>(
        &mut self,
        store: &mut D,
        out: &mut O,
        err: &mut E,
    )
        requires begun { AreBelow self.old.counts }
        requires on { self.old.end ≡ None }
        requires goes { self.old.stalled ≡ false }
        requires quiet { self.old.text ≡ 0 }
        requires stub { (core_of self.old.own).view ≡ View.Stub }
        requires spare { 17 ≤ spare_of self.old.mem }
        ensures makes { MakesOwnWord self.old self.new (record { store = D.state store.old; out = O.state out.old; err = E.state err.old })
            (record { store = D.state store.new; out = O.state out.new; err = E.state err.new }) }
        ensures moves { self.new.counts.moves ≡ self.old.counts.moves }
        ensures caused { IsCaused self.new.end (record { store = D.state store.old; out = O.state out.old; err = E.state err.old }) (record { store = D.state store.new; out = O.state out.new; err = E.state err.new }) }
    {
        match step(&mut self.own, &mut self.mem) {
            Event::Done => {}
            Event::Leave => {}
            Event::Key(rd) => self.own_key(rd),
            Event::Stop => self.state = ShadowState::Stopped,
            Event::Restart => self.restart(),
            Event::Trap(cause) => self.trap(cause),
            Event::Call(_) => self.own_call(store, out, err),
            // No other event comes.
            _ => {}
        }
    }
}
