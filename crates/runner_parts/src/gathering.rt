//! The blocks of a read are needed or read in order.

ghost use Rattle.std.specs.Prelude.{◌≡◌, ◌≤◌, ◌<◌, ◌^◌, ◌+◌, ◌*◌, ◌-◌, ◌/◌, true, None, Some, length, take, drop, nat_lt, slice_get};
ghost use Rattle.run_model.specs.ShadowMoves.{all_held};
ghost use Rattle.spec_base.specs.Files.{Files};
ghost use Rattle.program_model.specs.Cache.{blocks_up, blocks_of, gather};
ghost use Rattle.cache_queue.specs.State.{lists};
ghost use Rattle.cache_queue.specs.Finishes.{TrueTo};
ghost use Rattle.runner_parts.specs.Gathers.{gathered};
ghost use Rattle.runner_parts.specs.Parts.{demand_if};
ghost use Rattle.runner_parts.specs.Staged.{joined, joined_up};

use crate::hinting::block_count;
use cache_queue::{Cache, Need};
use spec_base::{BlockSpot, Name, ReadSpot};
use world_io::BLOCK;

// Needs the blocks with these numbers in order, from one on up to the first that isn't cached. Answers how
// many were had then. The bytes of each go to its place in a buffer.
fn need_blocks(
    cache: &mut Cache,
    name: &Name,
    first: u64,
    from: u64,
    count: u64,
    into: &mut [u8],
) -> u64
    requires idle { cache.old.demanded ≡ None }
    requires number { first + count < 2 ^ 63 }
    requires few { count ≤ 17 }
    requires begun { from ≤ count }
    requires room { 4096 * count ≤ length into.old }
    ensures lists { gathered (lists cache.new) result count ≡ gather (lists cache.old) from (blocks_up name.now (first + from) (count - from)) }
    ensures within { result ≤ count }
    ensures demanded { cache.new.demanded ≡ demand_if (nat_lt result count) (Some (record { name = name.now; block = first + result })) }
    ensures contents { (files : Files) → TrueTo files cache.old.blocks → TrueTo files cache.new.blocks }
    ensures staged { (files : Files) → TrueTo files cache.old.blocks → take (4096 * from) into.old ≡ joined_up files name.now first from → take (4096 * result) into.new ≡ joined_up files name.now first result }
    ensures depth { cache.new.depth ≡ cache.old.depth }
    ensures most { cache.new.blocks.most ≡ cache.old.blocks.most }
{
    for index in from..count {
        let spot = BlockSpot {
            name: *name,
            block: first + index,
        };
        let start = BLOCK * index as usize;
        match cache.need(spot, &mut into[start..start + BLOCK]) {
            Need::Ready => {}
            Need::Wait => return index,
        }
    }
    count
}

/// Needs the blocks of a read in order, behind so many that it has, up to the first that isn't cached.
/// Answers how many it has then. The bytes of each go to its place in a buffer.
pub fn need_rest(cache: &mut Cache, spot: &ReadSpot, had: u64, into: &mut [u8]) -> u64
    requires idle { cache.old.demanded ≡ None }
    requires offset { spot.now.offset < 2 ^ 56 }
    requires count { spot.now.count ≤ 65536 }
    requires room { length into.old ≡ 69632 }
    ensures lists { had ≤ length (blocks_of spot.now) → gathered (lists cache.new) result (length (blocks_of spot.now)) ≡ gather (lists cache.old) had (drop had (blocks_of spot.now)) }
    ensures within { result ≤ length (blocks_of spot.now) }
    ensures demanded { cache.new.demanded ≡ demand_if (nat_lt result (length (blocks_of spot.now))) (slice_get (blocks_of spot.now) result) }
    ensures contents { (files : Files) → TrueTo files cache.old.blocks → TrueTo files cache.new.blocks }
    ensures staged { (files : Files) → had ≤ length (blocks_of spot.now) → TrueTo files cache.old.blocks → take (4096 * had) into.old ≡ joined files (take had (blocks_of spot.now))
        → take (4096 * result) into.new ≡ joined files (take result (blocks_of spot.now)) }
    ensures depth { cache.new.depth ≡ cache.old.depth }
    ensures most { cache.new.blocks.most ≡ cache.old.blocks.most }
{
    let count = block_count(spot);
    need_blocks(
        cache,
        &spot.name,
        spot.offset / 4096,
        had.min(count),
        count,
        into,
    )
}

// Reads the blocks with these numbers in order, up to the first that isn't cached, and leaves the cache as it
// is. Answers whether all are. The bytes of each go to its place in a buffer.
fn peek_blocks(cache: &Cache, name: &Name, first: u64, count: u64, into: &mut [u8]) -> bool
    requires number { first + count < 2 ^ 63 }
    requires few { count ≤ 17 }
    requires room { 4096 * count ≤ length into.old }
    ensures held { result ≡ all_held (lists cache.now).cached (blocks_up name.now first count) }
    ensures staged { (files : Files) → TrueTo files cache.now.blocks → result ≡ true → take (4096 * count) into.new ≡ joined_up files name.now first count }
{
    for index in 0..count {
        let spot = BlockSpot {
            name: *name,
            block: first + index,
        };
        let start = BLOCK * index as usize;
        if !cache.peek(spot, &mut into[start..start + BLOCK]) {
            return false;
        }
    }
    true
}

/// Reads the blocks of a read in order, up to the first that isn't cached, and leaves the cache as it
/// is. Answers whether all are. The bytes of each go to its place in a buffer.
pub(crate) fn peek_all(cache: &Cache, spot: &ReadSpot, into: &mut [u8]) -> bool
    requires offset { spot.now.offset < 2 ^ 56 }
    requires count { spot.now.count ≤ 65536 }
    requires room { length into.old ≡ 69632 }
    ensures held { result ≡ all_held (lists cache.now).cached (blocks_of spot.now) }
    ensures staged { (files : Files) → TrueTo files cache.now.blocks → result ≡ true → take (4096 * length (blocks_of spot.now)) into.new ≡ joined files (blocks_of spot.now) }
{
    peek_blocks(
        cache,
        &spot.name,
        spot.offset / 4096,
        block_count(spot),
        into,
    )
}
