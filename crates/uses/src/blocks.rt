//! The cache of blocks.

ghost use Rattle.std.specs.Prelude.{◌≡◌, true, length, None, Some, IfSome};
ghost use Rattle.spec_base.specs.Files.{Files};
ghost use Rattle.program_model.specs.Cache.{holds, hinted};
ghost use Rattle.cache_queue.specs.State.{lists};
ghost use Rattle.cache_queue.specs.Finishes.{padded_block, TrueTo};

use cache_queue::{Cache, Finished, Need};
use spec_base::BlockSpot;
use world_io::Store;

/// Whether it comes from the cache or from the store, a block has the bytes of its file, and is cached then. False where
/// it couldn't be fetched, or was lost for want of memory.
pub fn get<D: Store>(cache: &mut Cache, store: &mut D, spot: BlockSpot, into: &mut [u8]) -> bool
    requires idle { cache.old.demanded ≡ None }
    requires size { length into.old ≡ 4096 }
    ensures idle { cache.new.demanded ≡ None }
    ensures cached { result ≡ true → holds (lists cache.new).cached spot ≡ true }
    ensures bytes { (files : Files) → (D.state store.old).files ≡ Some files → TrueTo files cache.old.blocks → result ≡ true → into.new ≡ padded_block (files spot.name) spot.block }
{
    match cache.need(spot, into) {
        Need::Ready => true,
        Need::Wait => matches!(cache.finish(store, into), Finished::Put(_)),
    }
}

/// A block that was got is a hit when it is needed next.
pub fn hit_again<D: Store>(
    cache: &mut Cache,
    store: &mut D,
    spot: &BlockSpot,
    into: &mut [u8],
) -> Option<Need>
    requires idle { cache.old.demanded ≡ None }
    requires size { length into.old ≡ 4096 }
    ensures { IfSome result (λ need. need ≡ Need.Ready) }
{
    if get(cache, store, *spot, into) {
        Some(cache.need(*spot, into))
    } else {
        None
    }
}

/// A block that is hinted twice is hinted once.
pub fn hint_twice(cache: &mut Cache, spot: &BlockSpot)
    ensures { lists cache.new ≡ hinted cache.old.depth (lists cache.old) spot.now }
{
    cache.hint(*spot);
    cache.hint(*spot);
}
