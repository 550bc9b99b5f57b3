//! The report of a run.

ghost use Rattle.std.specs.Prelude.{◌≡◌, ◌++◌, ◌⊎◌, codes, decimal, IfOk, OnOk, OnErr};
ghost use Rattle.trace_text.specs.Report.{report_of, state_text};

use crate::keyword::park_text;
use itoa::Buffer;
use spec_base::{NoMemory, ShadowState};
use std::alloc::Global;

/// What a report tells of a run.
#[derive(Clone, Copy, Debug, PartialEq, Eq)]
pub struct Counts {
    /// Instructions that the program completed.
    pub instructions: u64,
    /// Moves in which the program waited for a block.
    pub stalls: u64,
    /// Restarts of the shadow.
    pub restarts: u64,
    /// Keyed reads that were performed without a restart.
    pub matched: u64,
    /// Hints that the shadow gave.
    pub hints: u64,
    /// The most regions of the shadow in use at any moment.
    pub regions: u64,
    /// Instructions that the shadow completed since its restart.
    pub shadow: u64,
    /// What the shadow is doing.
    pub state: ShadowState,
}

/// No report has more bytes.
const MOST_LENGTH: usize = 256;

/// Adds a label and a number. After `NoMemory` the line has none of these, or the label alone.
pub fn push_count(line: &mut Vec<u8>, label: &[u8], count: u64) -> Result<(), NoMemory>
    ensures ok { OnOk result (line.new.items ≡ line.old.items ++ (label.now ++ decimal count)) }
    ensures err { OnErr result ((line.new.items ≡ line.old.items) ⊎ (line.new.items ≡ line.old.items ++ label.now)) }
{
    line.extend_from_slice(label)?;
    line.extend_from_slice(Buffer::new().format(count).as_bytes())?;
    Ok(())
}

fn push_text(line: &mut Vec<u8>, text: &[u8]) -> Result<(), NoMemory>
    ensures { OnOk result (line.new.items ≡ line.old.items ++ text.now) }
{
    line.extend_from_slice(text)?;
    Ok(())
}

// Adds a space and what the shadow is doing.
fn push_state(line: &mut Vec<u8>, state: ShadowState) -> Result<(), NoMemory>
    ensures { OnOk result (line.new.items ≡ line.old.items ++ codes " " ++ state_text state) }
{
    match state {
        ShadowState::Never => push_text(line, b" never"),
        ShadowState::Running => push_text(line, b" running"),
        ShadowState::Stopped => push_text(line, b" stopped"),
        ShadowState::Parked(cause) => {
            push_text(line, b" parked ")?;
            push_text(line, park_text(cause))
        }
    }
}

/// The report line of a run.
pub fn report(alloc: Global, counts: &Counts) -> Result<Vec<u8>, NoMemory>
    ensures { IfOk result (λ line. line.items ≡ report_of counts.now) }
{
    let mut line = Vec::with_capacity(alloc, MOST_LENGTH)?;
    push_count(&mut line, b"spechint: instructions ", counts.instructions)?;
    push_count(&mut line, b" stalls ", counts.stalls)?;
    push_count(&mut line, b" restarts ", counts.restarts)?;
    push_count(&mut line, b" matched ", counts.matched)?;
    push_count(&mut line, b" hints ", counts.hints)?;
    push_count(&mut line, b" regions ", counts.regions)?;
    push_count(&mut line, b" shadow ", counts.shadow)?;
    push_state(&mut line, counts.state)?;
    line.extend_from_slice(b"\n")?;
    Ok(line)
}
