//! The cached blocks: each in a frame of its own, and the least recently used leaves first.

ghost use Rattle.std.specs.Prelude.{◌≡◌, ◌-◌, ◌∷◌, ◌<◌, ◌≤◌, true, false, [], take, length, IfOk, OnOk, OnErr, Some};
ghost use Rattle.program_model.specs.Cache.{holds, without};
ghost use Rattle.cache_queue.specs.Frames.{IsFilled};
ghost use Rattle.cache_queue.specs.State.{keys_of, bytes_of, with_block, SameBytes};

use lru::LruCache;
use page_pool::{Frame, Pool, PoolFault};
use spec_base::{BlockSpot, NoMemory};
use std::alloc::{AllocFailed, Global};
use std::marker::Model;
use std::num::NonZeroUsize;

/// Cached blocks. A contract sees each with its bytes, the most recently used first, and how many
/// there may be.
#[derive(Drop)]
pub(crate) struct Blocks {
    pool: Pool,
    frames: LruCache<BlockSpot, Frame>,
}

impl Model for Blocks {
    ghost use Rattle.cache_queue.specs.State.{CachedBlocks};

    ghost Value = { CachedBlocks };

    ghost use Rattle.cache_queue.specs.Storage.{cached_of, IsSound};

    ghost view = { cached_of };

    ghost invariant = { IsSound };
}

impl Blocks {
    /// No blocks yet, of `most` at most.
    pub fn new(alloc: Global, most: usize) -> Result<Blocks, NoMemory>
        requires some { 0 < most }
        requires few { most ≤ 1_048_576 }
        ensures { IfOk result (λ blocks. (blocks.entries ≡ []) × (blocks.most ≡ most)) }
    {
        let most = NonZeroUsize::new(most).unwrap();
        Ok(Blocks {
            pool: Pool::new(alloc, most.get() + 1),
            frames: LruCache::new(alloc, most)?,
        })
    }

    /// Reads a block, and leaves its place.
    pub fn peek(&self, spot: &BlockSpot, into: &mut [u8]) -> bool
        requires { length into.old ≡ 4096 }
        ensures found { result ≡ holds (keys_of self.now) spot.now }
        ensures bytes { result ≡ true → bytes_of self.now spot.now ≡ Some into.new }
        ensures stays { result ≡ false → into.new ≡ into.old }
    {
        match self.frames.peek(spot) {
            Some(frame) => {
                into.copy_from_slice(self.pool.bytes(frame));
                true
            }
            None => false,
        }
    }

    /// Whether the block is here.
    pub fn contains(&self, spot: &BlockSpot) -> bool
        ensures { result ≡ holds (keys_of self.now) spot.now }
    {
        self.frames.contains(spot)
    }

    /// Reads a block, which becomes the most recently used.
    pub fn get(&mut self, spot: &BlockSpot, into: &mut [u8]) -> bool
        requires { length into.old ≡ 4096 }
        ensures found { result ≡ holds (keys_of self.old) spot.now }
        ensures bytes { result ≡ true → bytes_of self.old spot.now ≡ Some into.new }
        ensures first { result ≡ true → keys_of self.new ≡ spot.now ∷ without (keys_of self.old) spot.now }
        ensures absent { result ≡ false → (self.new ≡ self.old) × (into.new ≡ into.old) }
        ensures same { SameBytes self.old self.new }
        ensures most { self.new.most ≡ self.old.most }
    {
        let Some(frame) = self.frames.get(spot) else {
            return false;
        };
        into.copy_from_slice(self.pool.bytes(frame));
        true
    }

    /// Keeps a block that isn't here, as the most recently used. Where there is no place left, the
    /// least recently used block leaves, and its frame is given back.
    pub fn keep(&mut self, spot: &BlockSpot, bytes: &[u8]) -> Result<(), NoMemory>
        requires absent { holds (keys_of self.old) spot.now ≡ false }
        requires size { length bytes.now ≡ 4096 }
        ensures ok { OnOk result (self.new ≡ with_block self.old spot.now bytes.now) }
        ensures err { OnErr result (self.new ≡ self.old) }
    {
        let frame = filled_frame(&mut self.pool, bytes)?;
        match self.frames.push(*spot, frame) {
            Ok(None) => Ok(()),
            Ok(Some((_, left))) => {
                self.pool.give(left);
                Ok(())
            }
            Err(AllocFailed { value: (_, frame) }) => {
                self.pool.give(frame);
                Err(NoMemory)
            }
        }
    }
}

// A frame of the pool with these bytes.
fn filled_frame(pool: &mut Pool, bytes: &[u8]) -> Result<Frame, NoMemory>
    requires room { pool.old.in_use < pool.old.most }
    requires size { length bytes.now ≡ 4096 }
    ensures ok { IfOk result (λ frame. IsFilled pool.old pool.new frame bytes.now) }
    ensures err { OnErr result (pool.new ≡ pool.old) }
{
    match pool.reserve(1) {
        Ok(()) => {
            let frame = pool.take().unwrap();
            pool.write(&frame, 0, bytes);
            Ok(frame)
        }
        Err(PoolFault::Full) => unreachable!(),
        Err(PoolFault::NoMemory) => Err(NoMemory),
    }
}
