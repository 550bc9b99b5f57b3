//! The places for blocks, and who has them.

ghost use Rattle.std.specs.Prelude.{◌≡◌, ℕ, ◌+◌, ◌<◌, ◌≤◌, ◌^◌, ◌∷◌, [], Bool, List, true, false, length, IfOk};
ghost use Rattle.fetch_plan.specs.Plans.{distance};
ghost use Rattle.fetch_plan.specs.Occupied.{Holds, IsMet, IsReady};

use crate::held::Held;
use std::alloc::{AllocError, Global};

/// At most so many blocks, how many there are, and which.
#[derive(Drop)]
pub(crate) struct Occupied {
    held: Held,
    count: u32,
    blocks: u32,
}

/// What comes of a need.
#[derive(Clone, Copy)]
pub(crate) struct Met {
    pub fetched: bool,
    pub leaves: Option<u64>,
}

impl Occupied {
    /// No block yet, before so many needs.
    pub fn new(alloc: Global, blocks: u32, count: usize) -> Result<Occupied, AllocError>
        requires { 1 ≤ blocks }
        ensures holds { IfOk result (λ o. (needs : List ℕ) → length needs ≡ count → Holds o 0 needs []) }
        ensures blocks { IfOk result (λ o. o.blocks ≡ blocks) }
    {
        Ok(Occupied {
            held: Held::new(alloc, count)?,
            count: 0,
            blocks,
        })
    }

    /// Meets the need of a block, by the place of its next need, which is past all places where
    /// there is none.
    pub fn meet(&mut self, place: usize, block: u64, next: usize) -> Result<Met, AllocError>
        ensures met { IfOk result (λ met. (needs held : List ℕ) → Holds self.old place (block ∷ needs) held →
            next ≡ place + 1 + distance needs block → IsMet self.old self.new place block needs held met) }
        ensures blocks { self.new.blocks ≡ self.old.blocks }
    {
        let met = self.make_room(place);
        self.held.put(block, next)?;
        Ok(met)
    }

    // Makes room for the block that is needed at a place, and leaves it out of the tables.
    fn make_room(&mut self, place: usize) -> Met
        ensures ready { (block : ℕ) (needs held : List ℕ) → Holds self.old place (block ∷ needs) held → IsReady self.old self.new place block needs held result }
        ensures blocks { self.new.blocks ≡ self.old.blocks }
    {
        if self.held.take_needed(place) {
            return Met {
                fetched: false,
                leaves: None,
            };
        }
        if self.count < self.blocks {
            self.count += 1;
            return Met {
                fetched: true,
                leaves: None,
            };
        }
        Met {
            fetched: true,
            leaves: self.held.take_first(),
        }
    }
}
