//! One move.

ghost use Rattle.std.specs.Prelude.{◌≡◌, ◌≢◌, ◌+◌, ◌<◌, ◌≤◌, ◌^◌, None};
ghost use Rattle.runner.specs.Causes.{IsLater, EndHasCause, FaultHasCause, TellsEnd, IsCaused};
ghost use Rattle.runner.specs.Goes.{MakesMove, WantsPages};

use crate::runner::Runner;
use runner_parts::Turn;
use spec_base::Move;
use world_io::{Sink, Store};

impl Runner {
    // A move of a run that goes on.
    fn go_on<D: Store, O: Sink, E: Sink>(
        &mut self,
        step: Move,
        store: &mut D,
        out: &mut O,
        err: &mut E,
    ) -> Turn
        requires on { self.old.end ≡ None }
        requires few { self.old.counts.moves < 2 ^ 63 }
        ensures makes { result ≢ Turn.NoMemory → MakesMove step result self.old self.new (record { store = D.state store.old; out = O.state out.old; err = E.state err.old })
            (record { store = D.state store.new; out = O.state out.new; err = E.state err.new }) }
        ensures wants { result ≡ Turn.NoMemory → WantsPages step self.old self.new (record { store = D.state store.old; out = O.state out.old; err = E.state err.old })
            (record { store = D.state store.new; out = O.state out.new; err = E.state err.new }) }
        ensures moves { self.new.counts.moves ≤ self.old.counts.moves + 1 }
        ensures files { (D.state store.new).files ≡ (D.state store.old).files }
        ensures caused { IsCaused self.new.end (record { store = D.state store.old; out = O.state out.old; err = E.state err.old }) (record { store = D.state store.new; out = O.state out.new; err = E.state err.new }) }
        ensures end { TellsEnd result self.new.end }
    {
        match step {
            Move::O => self.own_move(store, out, err),
            Move::S => self.shadow_move(store),
            Move::T => self.stalled_move(store),
            Move::D => self.fetch_move(store),
        }
    }

    /// Makes one move: the step of the run that the runner shows, with what the outside answers. Store
    /// and sinks are asked what the move asks of them, and nothing else. `NoMemory` comes only for a
    /// move of the own hart with fewer than 17 pages spare, and then nothing has changed. A fault is
    /// told only where a call failed, whatever the store said before: its count of faults rose.
    pub fn go<D: Store, O: Sink, E: Sink>(
        &mut self,
        step: Move,
        store: &mut D,
        out: &mut O,
        err: &mut E,
    ) -> Turn
        requires few { self.old.counts.moves < 2 ^ 63 }
        ensures makes { result ≢ Turn.NoMemory → MakesMove step result self.old self.new (record { store = D.state store.old; out = O.state out.old; err = E.state err.old })
            (record { store = D.state store.new; out = O.state out.new; err = E.state err.new }) }
        ensures wants { result ≡ Turn.NoMemory → WantsPages step self.old self.new (record { store = D.state store.old; out = O.state out.old; err = E.state err.old })
            (record { store = D.state store.new; out = O.state out.new; err = E.state err.new }) }
        ensures moves { self.new.counts.moves ≤ self.old.counts.moves + 1 }
        ensures files { (D.state store.new).files ≡ (D.state store.old).files }
        ensures later { IsLater (record { store = D.state store.old; out = O.state out.old; err = E.state err.old }) (record { store = D.state store.new; out = O.state out.new; err = E.state err.new }) }
        ensures cause { FaultHasCause result (record { store = D.state store.old; out = O.state out.old; err = E.state err.old }) (record { store = D.state store.new; out = O.state out.new; err = E.state err.new }) }
        ensures end { TellsEnd result self.new.end }
        ensures ended { self.old.end ≡ None → EndHasCause self.new.end (record { store = D.state store.old; out = O.state out.old; err = E.state err.old }) (record { store = D.state store.new; out = O.state out.new; err = E.state err.new }) }
    {
        match self.end {
            Some(end) => {
                self.fall_silent();
                Turn::Ended(end)
            }
            None => self.go_on(step, store, out, err),
        }
    }
}
