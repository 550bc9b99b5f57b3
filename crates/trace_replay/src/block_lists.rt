//! The lists of a cache whose blocks have no bytes.

ghost use Rattle.std.specs.Prelude.{◌≡◌, ◌≤◌, IfOk, OnOk, is_some};
ghost use Rattle.program_model.specs.Cache.{holds, hinted, in_flight};
ghost use Rattle.trace_replay.specs.Lists.{no_blocks, after_need, after_finish};

use crate::keyed_lists::KeyedLists;
use small_spots::Names;
use spec_base::{BlockSpot, NoMemory};
use std::alloc::Global;
use std::marker::Model;

/// Cached blocks, the most recently used first, and queued blocks, the oldest first. They are kept by
/// small keys: a name is held once.
#[derive(Drop)]
pub(crate) struct BlockLists {
    names: Names,
    keyed: KeyedLists,
}

impl Model for BlockLists {
    ghost use Rattle.trace_replay.specs.Lists.{BoundedCache};

    ghost Value = { BoundedCache };

    ghost use Rattle.trace_replay.specs.Fields.{lists_of, AreFit};

    ghost view = { lists_of };

    ghost invariant = { AreFit };
}

impl BlockLists {
    /// No block; `blocks` may be cached, and `depth` queued.
    pub fn new(alloc: Global, blocks: u32, depth: u32) -> Result<BlockLists, NoMemory>
        requires blocks { 1 ≤ blocks }
        requires depth { 1 ≤ depth }
        ensures { IfOk result (λ lists. lists ≡ no_blocks blocks depth) }
    {
        Ok(BlockLists {
            names: Names::new(alloc),
            keyed: KeyedLists::new(alloc, blocks, depth)?,
        })
    }

    /// Needs a block, which is fetched at once if it isn't cached; true where it is cached. After
    /// `NoMemory` the lists aren't told.
    pub fn need(&mut self, spot: &BlockSpot) -> Result<bool, NoMemory>
        ensures cached { IfOk result (λ cached. cached ≡ holds self.old.cache.cached spot.now) }
        ensures lists { IfOk result (λ cached. self.new ≡ record self.old { cache = after_need cached self.old.blocks self.old.cache spot.now }) }
    {
        let key = self.names.key(spot)?;
        self.keyed.need(key)
    }

    /// Queues a block, unless it is cached or queued, or the queue is full.
    pub fn hint(&mut self, spot: &BlockSpot) -> Result<(), NoMemory>
        ensures { OnOk result (self.new ≡ record self.old { cache = hinted self.old.depth self.old.cache spot.now }) }
    {
        let key = self.names.key(spot)?;
        self.keyed.hint(key)
    }

    /// Caches the oldest queued block; false where none is queued. After `NoMemory` the lists aren't
    /// told.
    pub fn finish(&mut self) -> Result<bool, NoMemory>
        ensures any { IfOk result (λ any. any ≡ is_some (in_flight self.old.cache)) }
        ensures lists { OnOk result (self.new ≡ record self.old { cache = after_finish (in_flight self.old.cache) self.old.blocks self.old.cache }) }
    {
        self.keyed.finish()
    }
}
