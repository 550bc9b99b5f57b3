//! The plan.

ghost use Rattle.std.specs.Prelude.{◌≡◌, ℕ, ◌+◌, ◌<◌, ◌≤◌, true, List, length, IfOk};
ghost use Rattle.fetch_plan.specs.Plans.{is_plan, cost, plan_of, leaves};
ghost use Rattle.fetch_plan.specs.Planned.{IsByRule};

use crate::occupied::Occupied;
use crate::places::next_places;
use crate::plan_made::Plan;
use spec_base::NoMemory;
use std::alloc::Global;

// Meets all needs by the rule, one after the other.
fn meet_all(alloc: Global, needs: &[u64], blocks: u32) -> Result<Plan, NoMemory>
    requires blocks { 1 ≤ blocks }
    requires few { length needs.now ≤ 4_000_000 }
    ensures { IfOk result (IsByRule blocks needs.now) }
{
    let places = next_places(alloc, needs)?;
    let mut held = Occupied::new(alloc, blocks, needs.len())?;
    let mut fetches = 0;
    let mut leave = Vec::with_capacity(alloc, needs.len())?;
    for (place, block) in needs.iter().enumerate() {
        let met = held.meet(place, *block, places[place])?;
        if met.fetched {
            fetches += 1;
        }
        leave.push(met.leaves)?;
    }
    Ok(Plan { fetches, leave })
}

/// The plan that fetches a block where it isn't held as it is needed, and lets the block go whose
/// next need is farthest: one without a next need first, the lowest number among equals. No plan of
/// so many blocks costs less, also none that fetches ahead of need or lets several blocks go at once.
pub fn plan(alloc: Global, needs: &[u64], blocks: u32) -> Result<Plan, NoMemory>
    requires blocks { 1 ≤ blocks }
    requires few { length needs.now ≤ 4_000_000 }
    ensures leave { IfOk result (λ plan. plan.leave.items ≡ leaves blocks needs.now) }
    ensures planned { IfOk result (λ plan. is_plan blocks needs.now (plan_of needs.now plan.leave.items) ≡ true) }
    ensures cost { IfOk result (λ plan. plan.fetches ≡ cost (plan_of needs.now plan.leave.items)) }
    ensures least { IfOk result (λ plan. (other : List (List ℕ)) → is_plan blocks needs.now other ≡ true → plan.fetches ≤ cost other) }
{
    meet_all(alloc, needs, blocks)
}
