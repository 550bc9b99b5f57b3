//! The replay of a whole trace.

ghost use Rattle.std.specs.Prelude.{◌≡◌, ℕ, ◌^◌, ◌<◌, ◌≤◌, length, Ok, Err, IfOk, IfErr};
ghost use Rattle.trace_text.specs.Lines.{trace_in};
ghost use Rattle.trace_replay.specs.Traces.{trace_totals};

use crate::replay::Replay;
use crate::totals::Totals;
use std::alloc::Global;
use trace_text::{cut_line, parse_line};

/// Why a trace has no totals.
#[derive(Clone, Copy, Debug, PartialEq, Eq, Drop)]
pub enum ReplayFault {
    /// The line of this number, from 1, is the first that is no line of a trace.
    BadLine(u64),
    NoMemory,
}

/// Replays all lines of a trace, with a cache of at most `blocks` blocks, whose queue has at most
/// `depth`, and where a fetch takes `every` instructions of the program. Bytes behind the last newline
/// are a bad line.
pub fn replay_trace(
    alloc: Global,
    trace: &[u8],
    blocks: u32,
    depth: u32,
    every: u64,
) -> Result<Totals, ReplayFault>
    requires blocks { 1 ≤ blocks }
    requires depth { 1 ≤ depth }
    requires every { 1 ≤ every }
    requires size { length trace.now < 2 ^ 59 }
    ensures totals { IfOk result (λ totals. trace_totals (record { blocks = blocks; depth = depth; every = every }) trace.now ≡ Ok totals) }
    ensures bad_line { IfErr result (λ fault. (n : ℕ) → fault ≡ ReplayFault.BadLine n → trace_in trace.now ≡ Err n) }
{
    let Ok(mut replay) = Replay::new(alloc, blocks, depth, every) else {
        return Err(ReplayFault::NoMemory);
    };
    let mut rest = trace;
    let mut number: u64 = 0;
    while let Some((bytes, more)) = cut_line(rest) {
        number += 1;
        let Some(line) = parse_line(bytes) else {
            return Err(ReplayFault::BadLine(number));
        };
        let Ok(()) = replay.feed(&line) else {
            return Err(ReplayFault::NoMemory);
        };
        rest = more;
    }
    Ok(replay.totals())
}
