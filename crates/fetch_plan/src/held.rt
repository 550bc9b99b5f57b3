//! The blocks that are held, in the order in which they leave.

ghost use Rattle.std.specs.Prelude.{◌≡◌, ℕ, ◌+◌, ◌<◌, ◌≤◌, ◌∷◌, Bool, List, true, false, length, MatchOption, OnOk, IfOk};
ghost use Rattle.fetch_plan.specs.Plans.{distance};
ghost use Rattle.fetch_plan.specs.Kept.{GoesFirst, except, also};
ghost use Rattle.fetch_plan.specs.Tables.{Keeps, AreComing};
ghost use Rattle.fetch_plan.specs.Coming.{at_place, IsTakenAt};

use std::alloc::{AllocError, Global};
use std::collections::{BTreeSet, BinaryHeap};

/// The blocks that are held: those that are needed again, each at the place of its next need, and
/// those that aren't. The heap has each place with a block, and maybe some that have none any more.
#[derive(Drop)]
pub(crate) struct Held {
    pub coming: Vec<Option<u64>>,
    pub places: BinaryHeap<usize>,
    pub never: BTreeSet<u64>,
}

// The block that is held and needed next at a place, if one is.
fn block_at(coming: &[Option<u64>], place: usize) -> Option<u64>
    ensures { result ≡ at_place coming.now place }
{
    if place < coming.len() {
        coming[place]
    } else {
        None
    }
}

impl Held {
    /// No block, before so many needs.
    pub fn new(alloc: Global, count: usize) -> Result<Held, AllocError>
        ensures { IfOk result (λ h. (needs : List ℕ) → length needs ≡ count → Keeps h 0 needs (λ b. false)) }
    {
        Ok(Held {
            coming: vec![in alloc; None; count]?,
            places: BinaryHeap::new(alloc),
            never: BTreeSet::new(alloc),
        })
    }

    // Takes out the block that is needed next at a place, if one is held.
    fn take_at(&mut self, place: usize) -> Option<u64>
        ensures taken { IsTakenAt self.old.coming.items self.new.coming.items place result }
        ensures places { self.new.places ≡ self.old.places }
        ensures never { self.new.never ≡ self.old.never }
    {
        let block = block_at(&self.coming, place);
        if block.is_some() {
            self.coming[place] = None;
        }
        block
    }

    /// Takes out the block that is needed at this place; false where it isn't held.
    pub fn take_needed(&mut self, place: usize) -> bool
        ensures told { (x : ℕ) (needs : List ℕ) (held : ℕ → Bool) → Keeps self.old place (x ∷ needs) held → result ≡ held x }
        ensures taken { (x : ℕ) (needs : List ℕ) (held : ℕ → Bool) → Keeps self.old place (x ∷ needs) held → Keeps self.new (place + 1) needs (except held x) }
    {
        self.take_at(place).is_some()
    }

    /// Takes out the block that goes first.
    pub fn take_first(&mut self) -> Option<u64>
        ensures { (place : ℕ) (needs : List ℕ) (held : ℕ → Bool) → Keeps self.old place needs held →
            MatchOption result ((b : ℕ) → held b ≡ false) (λ f. GoesFirst needs held f × Keeps self.new place needs (except held f)) }
    {
        match self.never.pop_first() {
            Some(block) => Some(block),
            None => self.take_latest(),
        }
    }

    // Takes out the block whose next need is farthest.
    fn take_latest(&mut self) -> Option<u64>
        ensures { (place : ℕ) (needs : List ℕ) (held : ℕ → Bool) → Keeps self.old place needs held → AreComing self.old →
            MatchOption result ((b : ℕ) → held b ≡ false) (λ f. GoesFirst needs held f × Keeps self.new place needs (except held f)) }
    {
        while let Some(place) = self.places.pop() {
            let block = self.take_at(place);
            if block.is_some() {
                return block;
            }
        }
        None
    }

    /// Adds a block by the place of its next need, which is past all places where there is none.
    pub fn put(&mut self, block: u64, next: usize) -> Result<(), AllocError>
        ensures { OnOk result ((place : ℕ) (needs : List ℕ) (held : ℕ → Bool) → Keeps self.old place needs held →
            held block ≡ false → next ≡ place + distance needs block → Keeps self.new place needs (also held block)) }
    {
        if next < self.coming.len() {
            self.places.push(next)?;
            self.coming[next] = Some(block);
        } else {
            self.never.insert(block)?;
        }
        Ok(())
    }
}
