//! The next need of each need's block.

ghost use Rattle.std.specs.Prelude.{◌≡◌, ◌≢◌, ℕ, ◌+◌, ◌<◌, ◌≤◌, Some, None, length, drop, vec_len, slice_index, IfOk, OnOk};
ghost use Rattle.fetch_plan.specs.Plans.{distance};
ghost use Rattle.fetch_plan.specs.NextNeeds.{next_of};

use std::alloc::{AllocError, Global};
use std::collections::HashMap;

/// The place of each block's next need, where it has one. Blocks with low numbers, as those of a
/// trace are, stand in a table.
#[derive(Drop)]
pub(crate) struct NextNeeds {
    low: Vec<Option<usize>>,
    others: HashMap<u64, usize>,
}

impl NextNeeds {
    // No need; the table has so many blocks.
    fn new(alloc: Global, size: usize) -> Result<NextNeeds, AllocError>
        ensures { IfOk result (λ n. (block : ℕ) → next_of n block ≡ None) }
    {
        Ok(NextNeeds {
            low: vec![in alloc; None; size]?,
            others: HashMap::new(alloc),
        })
    }

    // Notes the need of a block at a place, and gives the one that was noted before.
    fn note(&mut self, block: u64, place: usize) -> Result<Option<usize>, AllocError>
        ensures old { IfOk result (λ old. old ≡ next_of self.old block) }
        ensures noted { OnOk result (next_of self.new block ≡ Some place) }
        ensures others { OnOk result ((q : ℕ) → q ≢ block → next_of self.new q ≡ next_of self.old q) }
    {
        if block < self.low.len() as u64 {
            let at = block as usize;
            let old = self.low[at];
            self.low[at] = Some(place);
            return Ok(old);
        }
        Ok(self.others.insert(block, place)?)
    }
}

// One more than the highest number, but 0 where that is more than there are needs.
fn table_size(needs: &[u64]) -> usize
    ensures { result ≤ length needs.now }
{
    let most = needs.iter().copied().fold(0, |most, need| most.max(need));
    if most < needs.len() as u64 {
        most as usize + 1
    } else {
        0
    }
}

/// For each need the place of the next need of its block; how many needs there are, where there is
/// none.
pub(crate) fn next_places(alloc: Global, needs: &[u64]) -> Result<Vec<usize>, AllocError>
    ensures size { IfOk result (λ places. vec_len places ≡ length needs.now) }
    ensures next { IfOk result (λ places. (k : ℕ) → k < length needs.now →
        slice_index places.items k ≡ k + 1 + distance (drop (k + 1) needs.now) (slice_index needs.now k)) }
{
    let mut places = vec![in alloc; 0; needs.len()]?;
    let mut last = NextNeeds::new(alloc, table_size(needs))?;
    let mut place = needs.len();
    while place > 0 {
        place -= 1;
        let next = last.note(needs[place], place)?;
        places[place] = next.unwrap_or(needs.len());
    }
    Ok(places)
}
