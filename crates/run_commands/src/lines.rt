//! The line that `demo` puts.

ghost use Rattle.std.specs.Prelude.{◌≡◌, ◌≤◌, IfOk};
ghost use Rattle.run_commands.specs.Demo.{demo_line};

use spec_base::NoMemory;
use std::alloc::Global;
use trace_text::{Counts, push_count, report};

/// What stands before the report has no more bytes.
const MOST_LENGTH: usize = 128;

/// How many bytes the first word of a report has, `spechint: `, which the line of `demo` leaves out.
const REPORT_START: usize = 10;

/// How many words the program of `demo` has beside those that only count.
const FEWEST_WORDS: u64 = 31;

/// The line of `demo`.
pub fn demo_line(
    alloc: Global,
    number: u64,
    rewritten: u64,
    written: u64,
    counts: &Counts,
) -> Result<Vec<u8>, NoMemory>
    requires { number ≤ 200_000 }
    ensures { IfOk result (λ line. line.items ≡ demo_line number rewritten written counts.now) }
{
    let told = report(alloc, counts)?;
    let mut line = Vec::with_capacity(alloc, MOST_LENGTH + told.len())?;
    push_count(&mut line, b"demo ", number)?;
    push_count(&mut line, b" words ", FEWEST_WORDS + number)?;
    push_count(&mut line, b" rewritten ", rewritten)?;
    push_count(&mut line, b" written ", written)?;
    line.extend_from_slice(b" ")?;
    line.extend_from_slice(&told[REPORT_START..])?;
    Ok(line)
}
