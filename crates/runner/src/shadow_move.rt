//! A move of the shadow.

ghost use Rattle.std.specs.Prelude.{◌≡◌, ◌+◌, ◌<◌, ◌≤◌, ◌^◌, ◌||◌, [], None, not};
ghost use Rattle.spec_base.specs.declared.note.Move.TheVariants as move;
ghost use Rattle.run_model.specs.ShadowMoves.{is_running};
ghost use Rattle.runner_parts.specs.Counts.{AreBelow};
ghost use Rattle.runner_parts.specs.Turns.{turn_if, turn_after};
ghost use Rattle.runner.specs.ShadowGoes.{MakesWord, MakesStep};

use crate::runner::Runner;
use runner_parts::{Turn, runs, turn_after};
use world_io::Store;

impl Runner {
    // A word of the running shadow. At an HCALL the planned call is assumed.
    fn shadow_turn<D: Store>(&mut self, store: &mut D)
        requires begun { AreBelow self.old.counts }
        requires quiet { self.old.notes ≡ [] }
        ensures makes { MakesWord self.old self.new (D.state store.old) (D.state store.new) }
        ensures moves { self.new.counts.moves ≡ self.old.counts.moves }
        ensures end { self.new.end ≡ self.old.end }
        ensures later { (D.state store.old).faults ≤ (D.state store.new).faults }
    {
        match self.shadow_word() {
            Some(unhinted) => {
                self.shadow_call(unhinted, store);
                self.end_word();
            }
            None => {}
        }
    }

    // A move S of a run that goes on.
    pub(crate) fn shadow_move<D: Store>(&mut self, store: &mut D) -> Turn
        requires on { self.old.end ≡ None }
        requires few { self.old.counts.moves < 2 ^ 63 }
        ensures turn { result ≡ turn_if (not (is_running self.old.state)) (turn_after self.new.end) }
        ensures moves { self.new.counts.moves ≡ self.old.counts.moves + 1 }
        ensures makes { MakesStep move.S self.old self.new (D.state store.old) (D.state store.new) }
        ensures end { self.new.end ≡ self.old.end }
        ensures later { (D.state store.old).faults ≤ (D.state store.new).faults }
    {
        self.begin();
        if !runs(&self.state) {
            return Turn::Idle;
        }
        self.shadow_turn(store);
        turn_after(&self.end)
    }

    // A move T of a run that goes on: a word of the shadow while the own hart waits.
    pub(crate) fn stalled_move<D: Store>(&mut self, store: &mut D) -> Turn
        requires on { self.old.end ≡ None }
        requires few { self.old.counts.moves < 2 ^ 63 }
        ensures turn { result ≡ turn_if (not self.old.stalled || not (is_running self.old.state)) (turn_after self.new.end) }
        ensures moves { self.new.counts.moves ≡ self.old.counts.moves + 1 }
        ensures makes { MakesStep move.T self.old self.new (D.state store.old) (D.state store.new) }
        ensures end { self.new.end ≡ self.old.end }
        ensures later { (D.state store.old).faults ≤ (D.state store.new).faults }
    {
        if !self.stalled {
            self.begin();
            return Turn::Idle;
        }
        self.shadow_move(store)
    }
}
