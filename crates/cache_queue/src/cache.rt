//! The cache: needs, hints and looks.

ghost use Rattle.std.specs.Prelude.{◌≡◌, ◌≤◌, ◌<◌, ◌↔◌, true, false, length, IfOk, Some, None, is_none};
ghost use Rattle.program_model.specs.Cache.{holds, in_flight, is_demanded, is_idle_hint, needed, hinted};
ghost use Rattle.cache_queue.specs.State.{lists, bytes_of, no_blocks, SameBytes};

use crate::blocks::Blocks;
use crate::queue::{is_queued, unqueue};
use circular_buffer::HeapCircularBuffer;
use spec_base::{BlockSpot, NoMemory};
use std::alloc::Global;
use std::marker::Model;

/// The answer to a need.
#[derive(Clone, Copy, Debug, PartialEq, Eq)]
pub enum Need {
    /// The block is cached.
    Ready,
    /// The block has to be fetched, and is demanded now.
    Wait,
}

/// Blocks of files, of which some are cached, some are queued to be fetched, and at most one is
/// waited for. No block stands twice among them.
#[derive(Drop)]
pub struct Cache {
    pub(crate) blocks: Blocks,
    pub(crate) queue: HeapCircularBuffer<BlockSpot>,
    pub(crate) demanded: Option<BlockSpot>,
}

impl Model for Cache {
    ghost use Rattle.cache_queue.specs.State.{CacheState};

    ghost Value = { CacheState };

    ghost use Rattle.cache_queue.specs.Flights.{state_of, HasOrder};

    ghost view = { state_of };

    ghost invariant = { HasOrder };
}

impl Cache {
    /// A cache of at most `blocks` blocks, whose queue has at most `depth`.
    pub fn new(alloc: Global, blocks: usize, depth: usize) -> Result<Cache, NoMemory>
        requires blocks { (1 ≤ blocks) × (blocks ≤ 1_048_576) }
        requires depth { (1 ≤ depth) × (depth ≤ 1_048_576) }
        ensures { IfOk result (λ cache. cache ≡ no_blocks blocks depth) }
    {
        Ok(Cache {
            blocks: Blocks::new(alloc, blocks)?,
            queue: HeapCircularBuffer::with_capacity(alloc, depth)?,
            demanded: None,
        })
    }

    /// Reads a cached block, and leaves all as it is; false where the block isn't cached.
    pub fn peek(&self, spot: BlockSpot, into: &mut [u8]) -> bool
        requires { length into.old ≡ 4096 }
        ensures found { result ≡ holds (lists self.now).cached spot }
        ensures bytes { result ≡ true → bytes_of self.now.blocks spot ≡ Some into.new }
        ensures stays { result ≡ false → into.new ≡ into.old }
    {
        self.blocks.peek(&spot, into)
    }

    /// Reads a cached block, which becomes the most recently used. Another block is demanded, and
    /// leaves the queue.
    pub fn need(&mut self, spot: BlockSpot, into: &mut [u8]) -> Need
        requires idle { self.old.demanded ≡ None }
        requires size { length into.old ≡ 4096 }
        ensures ready { (result ≡ Need.Ready) ↔ (holds (lists self.old).cached spot ≡ true) }
        ensures bytes { result ≡ Need.Ready → bytes_of self.old.blocks spot ≡ Some into.new }
        ensures wait { result ≡ Need.Wait → into.new ≡ into.old }
        ensures idle { result ≡ Need.Ready → self.new.demanded ≡ None }
        ensures lists { lists self.new ≡ needed (lists self.old) spot }
        ensures same { SameBytes self.old.blocks self.new.blocks }
        ensures most { self.new.blocks.most ≡ self.old.blocks.most }
        ensures depth { self.new.depth ≡ self.old.depth }
    {
        if self.blocks.get(&spot, into) {
            return Need::Ready;
        }
        unqueue(&mut self.queue, &spot);
        self.demanded = Some(spot);
        Need::Wait
    }

    /// Queues a block to be fetched, unless it is cached, queued or demanded, or the queue is full.
    pub fn hint(&mut self, spot: BlockSpot)
        ensures lists { lists self.new ≡ hinted self.old.depth (lists self.old) spot }
        ensures demanded { self.new.demanded ≡ self.old.demanded }
        ensures blocks { self.new.blocks ≡ self.old.blocks }
        ensures depth { self.new.depth ≡ self.old.depth }
    {
        if self.is_idle(&spot) {
            return;
        }
        let _ = self.queue.try_push_back(spot);
    }

    /// Whether no block is in flight: none is demanded, and none is queued.
    pub fn is_resting(&self) -> bool
        ensures { result ≡ is_none (in_flight (lists self.now)) }
    {
        match &self.demanded {
            Some(_) => false,
            None => self.queue.is_empty(),
        }
    }

    // Whether a hint of the block has no use.
    fn is_idle(&self, spot: &BlockSpot) -> bool
        ensures { result ≡ is_idle_hint self.now.depth (lists self.now) spot.now }
    {
        self.blocks.contains(spot)
            || is_queued(&self.queue, spot)
            || self.is_demanded(spot)
            || self.queue.len() >= self.queue.capacity()
    }

    fn is_demanded(&self, spot: &BlockSpot) -> bool
        ensures { result ≡ is_demanded self.now.demanded spot.now }
    {
        match &self.demanded {
            Some(demanded) => *spot == *demanded,
            None => false,
        }
    }
}
