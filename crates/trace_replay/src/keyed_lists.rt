//! The lists of a cache by small keys of blocks.

ghost use Rattle.std.specs.Prelude.{◌≡◌, ◌≤◌, List, IfOk, OnOk, is_some, []};
ghost use Rattle.lru.specs.LruCache.{lru_cache};
ghost use Rattle.spec_base.specs.Files.{Name};
ghost use Rattle.small_spots.specs.SmallSpots.{spot_of, IsKnown};
ghost use Rattle.program_model.specs.Cache.{holds, hinted, in_flight};
ghost use Rattle.trace_replay.specs.Lists.{after_need, after_finish};
ghost use Rattle.trace_replay.specs.Keyed.{lists_by, AreKeyed, is_idle_key};

use lru::LruCache;
use small_spots::SmallSpot;
use spec_base::NoMemory;
use std::alloc::Global;
use std::num::NonZeroUsize;

/// Cached blocks, the most recently used first, and queued blocks, the oldest first. Each is in at
/// most one of the two. A need, a hint and a finish take the same time whatever their lengths. What
/// blocks they are is said by names that have numbers.
#[derive(Drop)]
pub(crate) struct KeyedLists {
    pub cached: LruCache<SmallSpot, ()>,
    pub queue: LruCache<SmallSpot, ()>,
}

impl KeyedLists {
    /// No block; `blocks` may be cached, and `depth` queued.
    pub fn new(alloc: Global, blocks: u32, depth: u32) -> Result<KeyedLists, NoMemory>
        requires blocks { 1 ≤ blocks }
        requires depth { 1 ≤ depth }
        ensures { IfOk result (λ l. (l.cached ≡ lru_cache [] blocks) × (l.queue ≡ lru_cache [] depth)) }
    {
        let blocks = NonZeroUsize::new(blocks as usize).unwrap();
        let depth = NonZeroUsize::new(depth as usize).unwrap();
        Ok(KeyedLists {
            cached: LruCache::sparse(alloc, blocks)?,
            queue: LruCache::sparse(alloc, depth)?,
        })
    }

    /// Needs a block, which is fetched at once if it isn't cached; true where it is cached. After
    /// `NoMemory` the lists aren't told.
    pub fn need(&mut self, key: SmallSpot) -> Result<bool, NoMemory>
        ensures cached { IfOk result (λ cached. (names : List Name) → AreKeyed names self.old → IsKnown names key →
            cached ≡ holds (lists_by names self.old).cache.cached (spot_of names key)) }
        ensures lists { IfOk result (λ cached. (names : List Name) → AreKeyed names self.old → IsKnown names key →
            lists_by names self.new ≡ record (lists_by names self.old) { cache = after_need cached (lists_by names self.old).blocks (lists_by names self.old).cache (spot_of names key) }) }
        ensures keyed { (names : List Name) → AreKeyed names self.old → IsKnown names key → AreKeyed names self.new }
    {
        if self.cached.promote(&key) {
            return Ok(true);
        }
        let _ = self.queue.pop(&key);
        self.cached.put(key, ())?;
        Ok(false)
    }

    /// Queues a block, unless it is cached or queued, or the queue is full.
    pub fn hint(&mut self, key: SmallSpot) -> Result<(), NoMemory>
        ensures lists { OnOk result ((names : List Name) → AreKeyed names self.old → IsKnown names key →
            lists_by names self.new ≡ record (lists_by names self.old) { cache = hinted (lists_by names self.old).depth (lists_by names self.old).cache (spot_of names key) }) }
        ensures keyed { (names : List Name) → AreKeyed names self.old → IsKnown names key → AreKeyed names self.new }
    {
        if self.is_idle(&key) {
            return Ok(());
        }
        self.queue.put(key, ())?;
        self.queue.demote(&key);
        Ok(())
    }

    // Whether a hint of the block has no use. No block is demanded between two calls. Whether the queue is
    // full is asked first: it takes no look-up.
    fn is_idle(&self, key: &SmallSpot) -> bool
        ensures { result ≡ is_idle_key self.now key.now }
    {
        self.queue.cap().get() <= self.queue.len()
            || self.queue.contains(key)
            || self.cached.contains(key)
    }

    /// Caches the oldest queued block; false where none is queued. After `NoMemory` the lists aren't
    /// told.
    pub fn finish(&mut self) -> Result<bool, NoMemory>
        ensures any { IfOk result (λ any. (names : List Name) → AreKeyed names self.old → any ≡ is_some (in_flight (lists_by names self.old).cache)) }
        ensures lists { OnOk result ((names : List Name) → AreKeyed names self.old →
            lists_by names self.new ≡ record (lists_by names self.old) { cache = after_finish (in_flight (lists_by names self.old).cache) (lists_by names self.old).blocks (lists_by names self.old).cache }) }
        ensures keyed { (names : List Name) → AreKeyed names self.old → AreKeyed names self.new }
    {
        match self.queue.pop_mru() {
            Some((key, ())) => {
                self.cached.put(key, ())?;
                Ok(true)
            }
            None => Ok(false),
        }
    }
}
