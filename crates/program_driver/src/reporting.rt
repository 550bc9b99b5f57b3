//! A run with its report.

ghost use Rattle.std.specs.Prelude.{◌≡◌, ◌≤◌, ◌+◌, ◌^◌, ◌∷◌, [], None};
ghost use Rattle.trace_text.specs.Report.{report_of};
ghost use Rattle.run_model.specs.Run.{World, Run};
ghost use Rattle.command_words.specs.Limits.{IsPattern};
ghost use Rattle.runner.specs.Shows.{Shows};
ghost use Rattle.runner.specs.Causes.{IsLater};
ghost use Rattle.program_driver.specs.Causes.{HasCause, CountsLines};
ghost use Rattle.program_driver.specs.Lines.{LinesTo};
ghost use Rattle.program_driver.specs.Runs.{Drives, RunsTo, counts_of, is_reported};

use crate::driving::drive;
use crate::lines::{LineFault, ending_with, put_made};
use plain_runner::Ending;
use runner::Runner;
use spec_base::{List, Move};
use std::alloc::Global;
use trace_text::{Counts, report};
use world_io::{Sink, Store};

/// The counts of a report.
pub fn counts(runner: &Runner) -> Counts
    ensures { (w : World) (r : Run) → Shows runner.now w r → result ≡ counts_of r }
{
    Counts {
        instructions: runner.own_done(),
        stalls: runner.stalls(),
        restarts: runner.restarts(),
        matched: runner.matched(),
        hints: runner.hints(),
        regions: runner.regions_most(),
        shadow: runner.shadow_done(),
        state: runner.shadow(),
    }
}

/// Whether an ending is reported where that is asked for: an exit, a trap, or the end of the turns.
fn is_reported(asked: bool, ending: Ending) -> bool
    ensures { result ≡ is_reported asked ending }
{
    if !asked {
        return false;
    }
    match ending {
        Ending::Exited(_) => true,
        Ending::Trapped(_, _) => true,
        Ending::TurnsOver(_) => true,
        Ending::StoreFault => false,
        Ending::SinkFault => false,
        Ending::NoMemory => false,
    }
}

/// Puts the line of the report.
fn put_report<E: Sink>(alloc: Global, runner: &Runner, err: &mut E) -> Result<(), LineFault>
    ensures line { (w : World) (r : Run) → Shows runner.now w r → LinesTo (report_of (counts_of r) ∷ []) result (E.state err.old) (E.state err.new) }
    ensures counts { CountsLines result (E.state err.old) (E.state err.new) }
{
    put_made(err, report(alloc, &counts(runner)))
}

/// Makes the moves of a repeated pattern, at most `turns`, as `drive` does, and puts the line of the
/// report on standard error where it is asked for and the run ended by an exit, a trap, or with its turns.
/// A fault is answered only where the store or a sink counted one.
pub fn run<D: Store, O: Sink, E: Sink>(
    alloc: Global,
    runner: &mut Runner,
    pattern: &List<(Move, u32)>,
    turns: u64,
    with_report: bool,
    store: &mut D,
    out: &mut O,
    err: &mut E,
) -> Ending
    requires pattern { IsPattern pattern.now }
    requires few { runner.old.counts.moves + turns ≤ 2 ^ 63 }
    ensures drives { Drives (RunsTo pattern.now turns with_report result) runner.old runner.new
        (record { store = D.state store.old; out = O.state out.old; err = E.state err.old })
        (record { store = D.state store.new; out = O.state out.new; err = E.state err.new }) }
    ensures later { IsLater (record { store = D.state store.old; out = O.state out.old; err = E.state err.old })
        (record { store = D.state store.new; out = O.state out.new; err = E.state err.new }) }
    ensures cause { runner.old.end ≡ None → HasCause result (record { store = D.state store.old; out = O.state out.old; err = E.state err.old })
        (record { store = D.state store.new; out = O.state out.new; err = E.state err.new }) }
{
    let ending = drive(runner, pattern, turns, store, out, err);
    if !is_reported(with_report, ending) {
        return ending;
    }
    ending_with(ending, put_report(alloc, runner, err))
}
