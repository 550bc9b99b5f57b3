//! Finishing fetches.

ghost use Rattle.std.specs.Prelude.{◌≡◌, ◌++◌, true, false, not, length, replicate, IfSome, Some, None};
ghost use Rattle.world_io.specs.Outside.{KeepsFiles, Rose, Counts};
ghost use Rattle.spec_base.specs.Files.{Files};
ghost use Rattle.program_model.specs.Cache.{holds};
ghost use Rattle.cache_queue.specs.State.{lists};
ghost use Rattle.cache_queue.specs.Finishes.{padded_block, IsOf, finished, with_finished, IsKept, FinishTells, FinishFails, FinishCounts, TrueTo};

use crate::cache::Cache;
use spec_base::BlockSpot;
use world_io::{Fetch, Store};

/// What came of a finish.
#[derive(Clone, Copy, Debug, PartialEq, Eq)]
pub enum Finished {
    /// No block was in flight.
    Nothing,
    /// The block was fetched, and is cached.
    Put(BlockSpot),
    /// The block was fetched, and there was no memory to cache it.
    Lost(BlockSpot),
    /// The fetch of this queued block failed.
    Dropped(BlockSpot),
    /// The fetch of the demanded block failed.
    Fault(BlockSpot),
}

// Fetches a block, whose bytes past the end of the file are zero; false where the fetch failed.
fn fetch_block<D: Store>(store: &mut D, spot: &BlockSpot, into: &mut [u8]) -> bool
    requires { length into.old ≡ 4096 }
    ensures keeps { KeepsFiles (D.state store.old) (D.state store.new) }
    ensures failed { result ≡ false → Rose (D.state store.old).faults (D.state store.new).faults }
    ensures told { result ≡ true → IfSome (D.state store.old).files (λ files. into.new ≡ padded_block (files spot.now.name) spot.now.block) }
    ensures number { Counts (D.state store.old) (not result) (D.state store.new) }
{
    match store.fetch(&spot.name, spot.block, into) {
        Fetch::Got(count) => {
            into[count..].fill(0);
            true
        }
        Fetch::Failed => false,
    }
}

impl Cache {
    /// Finishes the fetch of the demanded block, else of the oldest queued one: reads it from the
    /// store into the buffer, and caches it. Where no place is left, the least recently used block
    /// leaves the cache.
    pub fn finish<D: Store>(&mut self, store: &mut D, into: &mut [u8]) -> Finished
        requires { length into.old ≡ 4096 }
        ensures block { IsOf (lists self.old) result }
        ensures lists { lists self.new ≡ finished self.old.blocks.most (lists self.old) result }
        ensures blocks { self.new.blocks ≡ with_finished self.old.blocks result into.new }
        ensures idle { self.new.demanded ≡ None }
        ensures depth { self.new.depth ≡ self.old.depth }
        ensures told { IfSome (D.state store.old).files (λ files. FinishTells files result into.new) }
        ensures keeps { KeepsFiles (D.state store.old) (D.state store.new) }
        ensures failed { FinishFails (D.state store.old).faults result (D.state store.new).faults }
        ensures number { FinishCounts (D.state store.old) result (D.state store.new) }
        ensures true_to { (files : Files) → (D.state store.old).files ≡ Some files → TrueTo files self.old.blocks → TrueTo files self.new.blocks }
    {
        if let Some(spot) = self.demanded {
            self.demanded = None;
            if fetch_block(store, &spot, into) {
                return self.keep(&spot, into);
            }
            return Finished::Fault(spot);
        }
        match self.queue.pop_front() {
            Some(spot) => {
                if fetch_block(store, &spot, into) {
                    return self.keep(&spot, into);
                }
                Finished::Dropped(spot)
            }
            None => Finished::Nothing,
        }
    }

    // Caches a block that was fetched.
    fn keep(&mut self, spot: &BlockSpot, bytes: &[u8]) -> Finished
        requires absent { holds (lists self.old).cached spot.now ≡ false }
        requires apart { holds self.old.queue spot.now ≡ false }
        requires idle { self.old.demanded ≡ None }
        requires size { length bytes.now ≡ 4096 }
        ensures { IsKept self.old spot.now bytes.now result self.new }
    {
        match self.blocks.keep(spot, bytes) {
            Ok(()) => Finished::Put(*spot),
            Err(_) => Finished::Lost(*spot),
        }
    }
}
