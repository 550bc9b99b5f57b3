//! A fetch finishes.

ghost use Rattle.std.specs.Prelude.{◌≡◌, ◌+◌, ◌<◌, ◌^◌, None, is_none};
ghost use Rattle.std.specs.Option.{option_map};
ghost use Rattle.spec_base.specs.declared.note.Move.TheVariants as move;
ghost use Rattle.program_model.specs.Cache.{in_flight};
ghost use Rattle.world_io.specs.Outside.{KeepsFiles, SinkState};
ghost use Rattle.cache_queue.specs.State.{lists};
ghost use Rattle.cache_queue.specs.Finishes.{IsOf, FinishFails, FinishCounts};
ghost use Rattle.runner_parts.specs.Answers.{end_after};
ghost use Rattle.runner_parts.specs.Parts.{end_of_run};
ghost use Rattle.runner_parts.specs.Turns.{turn_if, turn_after};
ghost use Rattle.runner.specs.Causes.{IsCaused, TellsEnd};
ghost use Rattle.runner.specs.Fetches.{Finishes};
ghost use Rattle.runner.specs.ShadowGoes.{MakesStep, beside};

use crate::runner::Runner;
use cache_queue::Finished;
use runner_parts::{Turn, finish_beside, tell_finish, turn_of_finish};
use world_io::Store;

impl Runner {
    // Finishes the fetch in flight, where the own hart waits for nothing: the block goes to the buffer
    // beside the staging buffer.
    fn finish_queued<D: Store>(&mut self, store: &mut D) -> Finished
        requires idle { self.old.cache.demanded ≡ None }
        requires on { self.old.end ≡ None }
        ensures block { IsOf (lists self.old.cache) result }
        ensures finishes { Finishes self.old self.new (D.state store.old) result }
        ensures keeps { KeepsFiles (D.state store.old) (D.state store.new) }
        ensures failed { FinishFails (D.state store.old).faults result (D.state store.new).faults }
        ensures number { FinishCounts (D.state store.old) result (D.state store.new) }
        ensures moves { self.new.counts.moves ≡ self.old.counts.moves }
        ensures end { self.new.end ≡ option_map end_of_run (end_after result) }
    {
        let finished = finish_beside(&mut self.cache, store, &mut self.filling);
        tell_finish(&mut self.notes, &finished);
        finished
    }

    // Finishes the fetch in flight.
    fn finish_any<D: Store>(&mut self, store: &mut D) -> Finished
        requires on { self.old.end ≡ None }
        requires quiet { self.old.text ≡ 0 }
        ensures block { IsOf (lists self.old.cache) result }
        ensures finishes { Finishes self.old self.new (D.state store.old) result }
        ensures keeps { KeepsFiles (D.state store.old) (D.state store.new) }
        ensures failed { FinishFails (D.state store.old).faults result (D.state store.new).faults }
        ensures number { FinishCounts (D.state store.old) result (D.state store.new) }
        ensures moves { self.new.counts.moves ≡ self.old.counts.moves }
        ensures end { self.new.end ≡ option_map end_of_run (end_after result) }
    {
        if self.stalled {
            self.finish_demanded(store)
        } else {
            self.finish_queued(store)
        }
    }

    // A move D of a run that goes on.
    pub(crate) fn fetch_move<D: Store>(&mut self, store: &mut D) -> Turn
        requires on { self.old.end ≡ None }
        requires few { self.old.counts.moves < 2 ^ 63 }
        ensures turn { result ≡ turn_if (is_none (in_flight (lists self.old.cache))) (turn_after self.new.end) }
        ensures moves { self.new.counts.moves ≡ self.old.counts.moves + 1 }
        ensures makes { MakesStep move.D self.old self.new (D.state store.old) (D.state store.new) }
        ensures caused { (out err : SinkState) → IsCaused self.new.end (beside (D.state store.old) out err) (beside (D.state store.new) out err) }
        ensures tells { TellsEnd result self.new.end }
    {
        self.begin();
        let finished = self.finish_any(store);
        turn_of_finish(&finished, &self.end)
    }
}
