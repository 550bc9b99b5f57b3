//! The lines that `replay` and `plan` put.

ghost use Rattle.std.specs.Prelude.{◌≡◌, ◌≤◌, IfOk};
ghost use Rattle.file_commands.specs.Lines.{replay_line, plan_line};

use fetch_plan::PlanTotals;
use spec_base::NoMemory;
use std::alloc::Global;
use trace_replay::Totals;
use trace_text::push_count;

/// No line of these has more bytes.
const MOST_LENGTH: usize = 128;

/// The line of `replay`.
pub fn replay_line(alloc: Global, totals: &Totals) -> Result<Vec<u8>, NoMemory>
    ensures { IfOk result (λ line. line.items ≡ replay_line totals.now) }
{
    let mut line = Vec::with_capacity(alloc, MOST_LENGTH)?;
    push_count(&mut line, b"replay reads ", totals.reads)?;
    push_count(&mut line, b" needs ", totals.needs)?;
    push_count(&mut line, b" stalls ", totals.stalls)?;
    push_count(&mut line, b" fetches ", totals.fetches)?;
    line.extend_from_slice(b"\n")?;
    Ok(line)
}

/// The line of `plan`.
pub fn plan_line(alloc: Global, totals: &PlanTotals, blocks: u32) -> Result<Vec<u8>, NoMemory>
    ensures { IfOk result (λ line. line.items ≡ plan_line totals.now blocks) }
{
    let mut line = Vec::with_capacity(alloc, MOST_LENGTH)?;
    push_count(&mut line, b"plan needs ", totals.needs)?;
    push_count(&mut line, b" fetches ", totals.fetches)?;
    push_count(&mut line, b" blocks ", blocks as u64)?;
    line.extend_from_slice(b"\n")?;
    Ok(line)
}
