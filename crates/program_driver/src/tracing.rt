//! The trace of a run.

ghost use Rattle.std.specs.Prelude.{◌≡◌, ◌++◌, ◌≤◌, ◌<◌, ◌+◌, ◌^◌, None, IfSome};
ghost use Rattle.world_io.specs.Outside.{SinkState};
ghost use Rattle.run_model.specs.Run.{World, Run};
ghost use Rattle.command_words.specs.Limits.{IsPattern};
ghost use Rattle.runner.specs.Causes.{IsLater};
ghost use Rattle.runner.specs.Shows.{Shows};
ghost use Rattle.program_driver.specs.Causes.{HasCause, CountsLines};
ghost use Rattle.program_driver.specs.Lines.{LinesTo};
ghost use Rattle.program_driver.specs.Uses.{use_line_if};
ghost use Rattle.program_driver.specs.Progress.{TracesStretch};
ghost use Rattle.program_driver.specs.Runs.{Drives};
ghost use Rattle.program_driver.specs.Traces.{TracesTo, TracesMove, last_lines};

use crate::advancing::{advance, is_starved};
use crate::lines::{LineFault, ending_with, fault_ending, put_made, put_notes};
use crate::schedule::Schedule;
use crate::uses::UseTrace;
use plain_runner::Ending;
use runner::Runner;
use spec_base::{List, Move};
use std::alloc::Global;
use trace_text::{turns_line, use_line};
use world_io::{CountSink, Sink, Store};

/// Puts the line of the use that a move completed, if it did.
fn put_use<O: Sink>(
    alloc: Global,
    runner: &Runner,
    used: bool,
    out: &mut O,
) -> Result<(), LineFault>
    ensures line { (w : World) (r : Run) → Shows runner.now w r → LinesTo (use_line_if used r) result (O.state out.old) (O.state out.new) }
    ensures counts { CountsLines result (O.state out.old) (O.state out.new) }
{
    if !used {
        return Ok(());
    }
    let (own, shadow) = (runner.own_done(), runner.shadow_done());
    put_made(out, use_line(alloc, own, shadow, runner.own_since()))
}

/// Puts the lines of the notes of the last move.
fn put_told<O: Sink>(alloc: Global, runner: &Runner, out: &mut O) -> Result<(), LineFault>
    ensures lines { (w : World) (r : Run) → Shows runner.now w r → LinesTo (last_lines r) result (O.state out.old) (O.state out.new) }
    ensures counts { CountsLines result (O.state out.old) (O.state out.new) }
{
    let (own, shadow) = (runner.own_done(), runner.shadow_done());
    put_notes(alloc, own, shadow, runner.notes(), runner.text(), out)
}

/// Puts the lines of a move: of the use that it completed, if it did, and of its notes.
fn put_lines<O: Sink>(
    alloc: Global,
    runner: &Runner,
    used: bool,
    out: &mut O,
) -> Result<(), LineFault>
    ensures lines { (w : World) (r : Run) → Shows runner.now w r → LinesTo (use_line_if used r ++ last_lines r) result (O.state out.old) (O.state out.new) }
    ensures counts { CountsLines result (O.state out.old) (O.state out.new) }
{
    if let Err(fault) = put_use(alloc, runner, used, out) {
        return Err(fault);
    }
    put_told(alloc, runner, out)
}

/// Makes a move, with each put of the program taken whole, and puts the lines of what it tells, with that
/// of the first use where it is asked for. Answers how that ends the run, if it does.
fn trace_move<D: Store, O: Sink>(
    alloc: Global,
    runner: &mut Runner,
    step: Move,
    uses: &mut UseTrace,
    store: &mut D,
    out: &mut O,
) -> Option<Ending>
    requires few { runner.old.counts.moves < 2 ^ 63 }
    ensures moves { runner.new.counts.moves ≤ runner.old.counts.moves + 1 }
    ensures files { (D.state store.new).files ≡ (D.state store.old).files }
    ensures traces { TracesMove step result uses.old uses.new runner.old runner.new (D.state store.old) (O.state out.old) (D.state store.new) (O.state out.new) }
    ensures later { (err : SinkState) → IsLater (record { store = D.state store.old; out = O.state out.old; err = err })
        (record { store = D.state store.new; out = O.state out.new; err = err }) }
    ensures cause { runner.old.end ≡ None → (err : SinkState) → IfSome result (λ ending. HasCause ending (record { store = D.state store.old; out = O.state out.old; err = err })
        (record { store = D.state store.new; out = O.state out.new; err = err })) }
    ensures goes_on { result ≡ None → runner.new.end ≡ None }
{
    let ahead = uses.look(step, runner);
    let reached = advance(
        runner,
        step,
        store,
        &mut CountSink::new(),
        &mut CountSink::new(),
    );
    if is_starved(reached) {
        return reached;
    }
    let Ok(used) = uses.learn(&ahead, runner) else {
        return Some(Ending::NoMemory);
    };
    match put_lines(alloc, runner, used, out) {
        Ok(()) => reached,
        Err(fault) => Some(fault_ending(fault)),
    }
}

/// Makes a move so many times, as `trace_move` does, and at once where it does nothing but count, which
/// tells nothing. Answers how that ends the run, if it does.
fn trace_stretch<D: Store, O: Sink>(
    alloc: Global,
    runner: &mut Runner,
    step: Move,
    count: u64,
    uses: &mut UseTrace,
    store: &mut D,
    out: &mut O,
) -> Option<Ending>
    requires few { runner.old.counts.moves + count ≤ 2 ^ 63 }
    ensures moves { runner.new.counts.moves ≤ runner.old.counts.moves + count }
    ensures goes { TracesStretch step count result uses.old uses.new runner.old runner.new (D.state store.old) (O.state out.old) (D.state store.new) (O.state out.new) }
    ensures later { (err : SinkState) → IsLater (record { store = D.state store.old; out = O.state out.old; err = err })
        (record { store = D.state store.new; out = O.state out.new; err = err }) }
    ensures cause { runner.old.end ≡ None → (err : SinkState) → IfSome result (λ ending. HasCause ending (record { store = D.state store.old; out = O.state out.old; err = err })
        (record { store = D.state store.new; out = O.state out.new; err = err })) }
    ensures goes_on { runner.old.end ≡ None → result ≡ None → runner.new.end ≡ None }
{
    for made in 0..count {
        if runner.rests(step) {
            runner.rest(count - made);
            return None;
        }
        if let Some(ending) = trace_move(alloc, runner, step, uses, store, out) {
            return Some(ending);
        }
    }
    None
}

/// Makes the moves of a repeated pattern, at most `turns`, over a store, as `drive` does, with each put of
/// the program taken whole. The lines of what the moves tell go to standard output, each put by itself
/// until it is whole; with uses the line of each first use stands before the others of its move. Where all
/// moves were made and the run would go on, the line of the turns is the last.
pub fn trace<D: Store, O: Sink>(
    alloc: Global,
    runner: &mut Runner,
    pattern: &List<(Move, u32)>,
    turns: u64,
    with_uses: bool,
    store: &mut D,
    out: &mut O,
) -> Ending
    requires pattern { IsPattern pattern.now }
    requires few { runner.old.counts.moves + turns ≤ 2 ^ 63 }
    ensures drives { (err : SinkState) → Drives (TracesTo with_uses pattern.now turns result) runner.old runner.new
        (record { store = D.state store.old; out = O.state out.old; err = err })
        (record { store = D.state store.new; out = O.state out.new; err = err }) }
    ensures later { (err : SinkState) → IsLater (record { store = D.state store.old; out = O.state out.old; err = err })
        (record { store = D.state store.new; out = O.state out.new; err = err }) }
    ensures cause { runner.old.end ≡ None → (err : SinkState) → HasCause result (record { store = D.state store.old; out = O.state out.old; err = err })
        (record { store = D.state store.new; out = O.state out.new; err = err }) }
{
    let mut uses = UseTrace::new(alloc, with_uses);
    let mut schedule = Schedule::new(pattern, turns);
    while let Some((step, count)) = schedule.next_stretch() {
        if let Some(ending) = trace_stretch(alloc, runner, step, count, &mut uses, store, out) {
            return ending;
        }
    }
    let (own, shadow) = (runner.own_done(), runner.shadow_done());
    let answer = put_made(out, turns_line(alloc, own, shadow));
    ending_with(Ending::TurnsOver(own), answer)
}
