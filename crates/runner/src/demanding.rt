//! The fetch that the own hart waits for.

ghost use Rattle.std.specs.Prelude.{◌≡◌, true, None};
ghost use Rattle.std.specs.Option.{option_map};
ghost use Rattle.world_io.specs.Outside.{KeepsFiles};
ghost use Rattle.cache_queue.specs.State.{lists};
ghost use Rattle.cache_queue.specs.Finishes.{IsOf, FinishFails, FinishCounts};
ghost use Rattle.runner_parts.specs.Answers.{end_after};
ghost use Rattle.runner_parts.specs.Parts.{end_of_run};
ghost use Rattle.runner.specs.Fetches.{Finishes};

use crate::runner::Runner;
use cache_queue::Finished;
use runner_parts::{blocks_had, end_of_finish, finish_at, still_waits, tell_finish};
use world_io::Store;

impl Runner {
    // Finishes the fetch that the own hart waits for: the block goes to its place in the staging
    // buffer, and the hart goes on. Where it fails the run is over.
    pub(crate) fn finish_demanded<D: Store>(&mut self, store: &mut D) -> Finished
        requires goes { self.old.end ≡ None }
        requires waits { self.old.stalled ≡ true }
        requires quiet { self.old.text ≡ 0 }
        ensures block { IsOf (lists self.old.cache) result }
        ensures finishes { Finishes self.old self.new (D.state store.old) result }
        ensures keeps { KeepsFiles (D.state store.old) (D.state store.new) }
        ensures failed { FinishFails (D.state store.old).faults result (D.state store.new).faults }
        ensures number { FinishCounts (D.state store.old) result (D.state store.new) }
        ensures moves { self.new.counts.moves ≡ self.old.counts.moves }
        ensures end { self.new.end ≡ option_map end_of_run (end_after result) }
    {
        let place = self.gathered.min(16);
        let finished = finish_at(&mut self.cache, store, &mut self.staging, place);
        tell_finish(&mut self.notes, &finished);
        self.stalled = still_waits(&finished);
        self.gathered = blocks_had(place, &finished);
        self.end = end_of_finish(&finished);
        finished
    }
}
