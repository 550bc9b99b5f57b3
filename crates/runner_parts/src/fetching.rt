//! A fetch finishes.

ghost use Rattle.std.specs.Prelude.{◌≡◌, ◌≤◌, ◌*◌, None, Some, List, length, take, drop};
ghost use Rattle.std.specs.Option.{option_map};
ghost use Rattle.spec_base.specs.Files.{Files};
ghost use Rattle.spec_base.specs.declared.spot.BlockSpot.{BlockSpot};
ghost use Rattle.world_io.specs.Outside.{KeepsFiles};
ghost use Rattle.cache_queue.specs.State.{lists};
ghost use Rattle.cache_queue.specs.Finishes.{IsOf, finished, FinishFails, FinishCounts, TrueTo};
ghost use Rattle.runner_parts.specs.Answers.{finish_notes, is_nothing, waits_after, had_after, end_after};
ghost use Rattle.runner_parts.specs.Heard.{AreTrueOf, said_by_finish};
ghost use Rattle.runner_parts.specs.Parts.{end_of_run};
ghost use Rattle.runner_parts.specs.Staged.{joined, StandsBehind};
ghost use Rattle.runner_parts.specs.Turns.{turn_if, turn_after};

use crate::notes::Notes;
use crate::turn::{End, Turn, turn_after};
use cache_queue::{Cache, Finished};
use spec_base::Note;
use world_io::{BLOCK, Store};

/// Finishes a fetch. The block's bytes go through the front of a buffer.
pub fn finish_beside<D: Store>(cache: &mut Cache, store: &mut D, into: &mut [u8]) -> Finished
    requires { 4096 ≤ length into.old }
    ensures block { IsOf (lists cache.old) result }
    ensures lists { lists cache.new ≡ finished cache.old.blocks.most (lists cache.old) result }
    ensures idle { cache.new.demanded ≡ None }
    ensures most { cache.new.blocks.most ≡ cache.old.blocks.most }
    ensures depth { cache.new.depth ≡ cache.old.depth }
    ensures keeps { KeepsFiles (D.state store.old) (D.state store.new) }
    ensures failed { FinishFails (D.state store.old).faults result (D.state store.new).faults }
    ensures number { FinishCounts (D.state store.old) result (D.state store.new) }
    ensures told { (files : Files) → (D.state store.old).files ≡ Some files → AreTrueOf files (said_by_finish result (take 4096 into.new)) }
    ensures true_to { (files : Files) → AreTrueOf files (said_by_finish result (take 4096 into.new)) → TrueTo files cache.old.blocks → TrueTo files cache.new.blocks }
{
    cache.finish(store, &mut into[..BLOCK])
}

/// Finishes a fetch. The block's bytes go to a place of a buffer of 17 blocks.
pub fn finish_at<D: Store>(
    cache: &mut Cache,
    store: &mut D,
    into: &mut [u8],
    place: usize,
) -> Finished
    requires few { place ≤ 16 }
    requires room { length into.old ≡ 69632 }
    ensures block { IsOf (lists cache.old) result }
    ensures lists { lists cache.new ≡ finished cache.old.blocks.most (lists cache.old) result }
    ensures idle { cache.new.demanded ≡ None }
    ensures most { cache.new.blocks.most ≡ cache.old.blocks.most }
    ensures depth { cache.new.depth ≡ cache.old.depth }
    ensures keeps { KeepsFiles (D.state store.old) (D.state store.new) }
    ensures failed { FinishFails (D.state store.old).faults result (D.state store.new).faults }
    ensures number { FinishCounts (D.state store.old) result (D.state store.new) }
    ensures told { (files : Files) → (D.state store.old).files ≡ Some files → AreTrueOf files (said_by_finish result (take 4096 (drop (4096 * place) into.new))) }
    ensures true_to { (files : Files) → AreTrueOf files (said_by_finish result (take 4096 (drop (4096 * place) into.new))) → TrueTo files cache.old.blocks → TrueTo files cache.new.blocks }
    ensures staged { (files : Files) (blocks : List BlockSpot) → AreTrueOf files (said_by_finish result (take 4096 (drop (4096 * place) into.new)))
        → take (4096 * place) into.old ≡ joined files blocks → StandsBehind files blocks place into.new result }
{
    let start = BLOCK * place;
    cache.finish(store, &mut into[start..start + BLOCK])
}

/// Tells of the finish of a fetch.
pub fn tell_finish(notes: &mut Notes, finished: &Finished)
    ensures { notes.new ≡ finish_notes notes.old finished.now }
{
    match finished {
        Finished::Nothing => {}
        Finished::Put(spot) => notes.set(Note::Fetch(*spot)),
        Finished::Lost(spot) => notes.set(Note::Lost(*spot)),
        Finished::Dropped(spot) => notes.set(Note::Drop(*spot)),
        Finished::Fault(_) => notes.set(Note::Fault),
    }
}

/// Whether the own hart still waits for the demanded block.
pub fn still_waits(finished: &Finished) -> bool
    ensures { result ≡ waits_after finished.now }
{
    match finished {
        Finished::Fault(_) => true,
        _ => false,
    }
}

/// How many blocks the own hart has then.
pub fn blocks_had(place: usize, finished: &Finished) -> usize
    requires { place ≤ 16 }
    ensures { result ≡ had_after place finished.now }
{
    match finished {
        Finished::Fault(_) => place,
        _ => place + 1,
    }
}

/// How the run has ended then.
pub fn end_of_finish(finished: &Finished) -> Option<End>
    ensures { result ≡ option_map end_of_run (end_after finished.now) }
{
    match finished {
        Finished::Fault(_) => Some(End::Store),
        _ => None,
    }
}

/// What a finish comes to as a move, by how the run has ended in it, if it has.
pub fn turn_of_finish(finished: &Finished, end: &Option<End>) -> Turn
    ensures { result ≡ turn_if (is_nothing finished.now) (turn_after end.now) }
{
    match finished {
        Finished::Nothing => Turn::Idle,
        _ => turn_after(end),
    }
}
