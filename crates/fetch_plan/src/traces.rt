//! The least number of fetches for a whole trace.

ghost use Rattle.std.specs.Prelude.{◌≡◌, ◌≢◌, ℕ, ◌<◌, ◌≤◌, List, [], length, Ok, Err, OnOk, IfOk, IfErr};
ghost use Rattle.spec_base.specs.declared.spot.BlockSpot.{BlockSpot as Spot};
ghost use Rattle.trace_text.specs.Lines.{trace_in};
ghost use Rattle.fetch_plan.specs.Needs.{numbered};
ghost use Rattle.fetch_plan.specs.Numbering.{Has};
ghost use Rattle.fetch_plan.specs.Traces.{trace_needs, HasLeast};

use crate::numbering::Numbering;
use crate::planning::plan;
use std::alloc::Global;
use trace_text::{cut_line, parse_line};

/// Why a trace has no least number of fetches.
#[derive(Clone, Copy, Debug, PartialEq, Eq, Drop)]
pub enum PlanFault {
    /// The line of this number, from 1, is the first that is no line of a trace.
    BadLine(u64),
    /// There are more than 4,000,000 needs.
    TooMany,
    NoMemory,
}

/// How many needs there are, and the least number of fetches that meets them.
#[derive(Clone, Copy, Debug, PartialEq, Eq)]
pub struct PlanTotals {
    pub needs: u64,
    pub fetches: u64,
}

// Notes the needs of all lines, up to the first that is none.
fn gather(numbering: &mut Numbering, trace: &[u8]) -> Result<(), PlanFault>
    requires { Has numbering.old [] }
    ensures ok { OnOk result ((spots : List Spot) × (trace_needs trace.now ≡ Ok spots) × Has numbering.new spots) }
    ensures bad_line { IfErr result (λ fault. (n : ℕ) → fault ≡ PlanFault.BadLine n → trace_in trace.now ≡ Err n) }
    ensures never { IfErr result (λ fault. fault ≢ PlanFault.TooMany) }
{
    let mut rest = trace;
    let mut number: u64 = 0;
    while let Some((bytes, more)) = cut_line(rest) {
        number += 1;
        let Some(line) = parse_line(bytes) else {
            return Err(PlanFault::BadLine(number));
        };
        let Ok(()) = numbering.add_line(&line) else {
            return Err(PlanFault::NoMemory);
        };
        rest = more;
    }
    Ok(())
}

// The numbers of the needs of all lines.
fn numbers_of(alloc: Global, trace: &[u8]) -> Result<Vec<u64>, PlanFault>
    ensures ok { IfOk result (λ v. (spots : List Spot) × (trace_needs trace.now ≡ Ok spots) × (v.items ≡ numbered spots) × (length spots ≤ 4_000_000)) }
    ensures bad_line { IfErr result (λ fault. (n : ℕ) → fault ≡ PlanFault.BadLine n → trace_in trace.now ≡ Err n) }
    ensures many { IfErr result (λ fault. fault ≡ PlanFault.TooMany → (spots : List Spot) × (trace_needs trace.now ≡ Ok spots) × (4_000_000 < length spots)) }
{
    let mut numbering = Numbering::new(alloc);
    let gathered = gather(&mut numbering, trace);
    let numbers = numbering.into_numbers();
    if let Err(fault) = gathered {
        return Err(fault);
    }
    match numbers {
        Some(numbers) => Ok(numbers),
        None => Err(PlanFault::TooMany),
    }
}

/// The least number of fetches that any cache of `blocks` blocks needs for the reads of a trace. Bytes
/// behind the last newline are a bad line.
pub fn plan_trace(alloc: Global, trace: &[u8], blocks: u32) -> Result<PlanTotals, PlanFault>
    requires { 1 ≤ blocks }
    ensures ok { IfOk result (λ totals. (spots : List Spot) × (trace_needs trace.now ≡ Ok spots) × HasLeast blocks spots totals) }
    ensures bad_line { IfErr result (λ fault. (n : ℕ) → fault ≡ PlanFault.BadLine n → trace_in trace.now ≡ Err n) }
    ensures many { IfErr result (λ fault. fault ≡ PlanFault.TooMany → (spots : List Spot) × (trace_needs trace.now ≡ Ok spots) × (4_000_000 < length spots)) }
{
    let numbers = match numbers_of(alloc, trace) {
        Ok(numbers) => numbers,
        Err(fault) => return Err(fault),
    };
    let Ok(made) = plan(alloc, &numbers, blocks) else {
        return Err(PlanFault::NoMemory);
    };
    Ok(PlanTotals {
        needs: numbers.len() as u64,
        fetches: made.fetches,
    })
}
