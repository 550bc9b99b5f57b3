//! The least number of fetches that any cache of so many blocks needs for a list of needs.
#![tactic(auto)]

mod held;
mod numbering;
mod occupied;
mod places;
mod plan_made;
mod planning;
mod traces;

pub use numbering::{NeedsFault, needs};
pub use plan_made::Plan;
pub use planning::plan;
pub use traces::{PlanFault, PlanTotals, plan_trace};

#[cfg(test)]
mod tests;
