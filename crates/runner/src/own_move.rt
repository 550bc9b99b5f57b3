//! A move of the own hart.

ghost use Rattle.std.specs.Prelude.{◌≡◌, ◌≢◌, ◌+◌, ◌<◌, ◌≤◌, ◌^◌, false, None};
ghost use Rattle.hart_mem.specs.Held.{spare_of};
ghost use Rattle.runner_parts.specs.Turns.{turn_if, turn_after};
ghost use Rattle.runner_parts.specs.Counts.{AreBelow};
ghost use Rattle.runner.specs.Causes.{IsCaused, TellsEnd};
ghost use Rattle.runner.specs.Goes.{WantsPages};
ghost use Rattle.runner.specs.OwnGoes.{MakesOwnWord, MakesOwnMove};

use crate::runner::Runner;
use runner_parts::{Turn, turn_after};
use spec_base::{Move, View};
use world_io::{Sink, Store};

/// How many spare pages any move may want: a read fills at most 17.
const PAGES: usize = 17;

impl Runner {
    // A word of the own hart.
    fn own_word<D: Store, O: Sink, E: Sink>(&mut self, store: &mut D, out: &mut O, err: &mut E)
        requires begun { AreBelow self.old.counts }
        requires on { self.old.end ≡ None }
        requires goes { self.old.stalled ≡ false }
        requires quiet { self.old.text ≡ 0 }
        requires spare { 17 ≤ spare_of self.old.mem }
        ensures makes { MakesOwnWord self.old self.new (record { store = D.state store.old; out = O.state out.old; err = E.state err.old })
            (record { store = D.state store.new; out = O.state out.new; err = E.state err.new }) }
        ensures moves { self.new.counts.moves ≡ self.old.counts.moves }
        ensures caused { IsCaused self.new.end (record { store = D.state store.old; out = O.state out.old; err = E.state err.old }) (record { store = D.state store.new; out = O.state out.new; err = E.state err.new }) }
    {
        match self.own.view() {
            View::Stub => self.stub_word(store, out, err),
            View::Program => self.program_word(),
            // The own hart has no other view.
            _ => {}
        }
    }

    // A move of the own hart. `NoMemory` where it waits for nothing and fewer than 17 pages are spare:
    // then nothing changes.
    pub(crate) fn own_move<D: Store, O: Sink, E: Sink>(
        &mut self,
        store: &mut D,
        out: &mut O,
        err: &mut E,
    ) -> Turn
        requires on { self.old.end ≡ None }
        requires few { self.old.counts.moves < 2 ^ 63 }
        ensures moves { result ≢ Turn.NoMemory → self.new.counts.moves ≡ self.old.counts.moves + 1 }
        ensures wants { result ≡ Turn.NoMemory → WantsPages Move.O self.old self.new (record { store = D.state store.old; out = O.state out.old; err = E.state err.old })
            (record { store = D.state store.new; out = O.state out.new; err = E.state err.new }) }
        ensures turn { result ≢ Turn.NoMemory → result ≡ turn_if self.old.stalled (turn_after self.new.end) }
        ensures makes { result ≢ Turn.NoMemory → MakesOwnMove self.old self.new (record { store = D.state store.old; out = O.state out.old; err = E.state err.old })
            (record { store = D.state store.new; out = O.state out.new; err = E.state err.new }) }
        ensures caused { IsCaused self.new.end (record { store = D.state store.old; out = O.state out.old; err = E.state err.old }) (record { store = D.state store.new; out = O.state out.new; err = E.state err.new }) }
        ensures tells { TellsEnd result self.new.end }
    {
        if self.stalled {
            self.begin();
            return Turn::Idle;
        }
        if self.mem.spare() < PAGES {
            return Turn::NoMemory;
        }
        self.begin();
        self.own_word(store, out, err);
        turn_after(&self.end)
    }
}
