//! One move of a runner.

ghost use Rattle.std.specs.Prelude.{◌≡◌, ◌≤◌, ◌<◌, ◌+◌, ◌^◌, None, IfSome};
ghost use Rattle.run_model.specs.Run.{World, Run};
ghost use Rattle.runner.specs.Causes.{IsLater};
ghost use Rattle.runner.specs.Shows.{Shows};
ghost use Rattle.program_driver.specs.Advances.{Advances, ending_in, ending_after, is_starved};
ghost use Rattle.program_driver.specs.Causes.{HasCause};

use plain_runner::Ending;
use runner::Runner;
use runner_parts::{End, Turn};
use spec_base::Move;
use world_io::{Sink, Store};

/// How many spare pages a move may want.
const PAGES: usize = 17;

/// Sees to it that pages are spare, and answers whether they are.
fn keep_spare(runner: &mut Runner) -> bool
    ensures shows { (w : World) (r : Run) → Shows runner.old w r → Shows runner.new w r }
    ensures counts { runner.new.counts ≡ runner.old.counts }
    ensures end { runner.new.end ≡ runner.old.end }
{
    runner.spare() >= PAGES || runner.reserve(PAGES).is_ok()
}

/// The ending of a run that has ended.
fn ending_in(end: End) -> Ending
    ensures { result ≡ ending_in end }
{
    match end {
        End::Exit(code) => Ending::Exited(code),
        End::Trap(cause, pc) => Ending::Trapped(cause, pc),
        End::Store => Ending::StoreFault,
        End::Sink => Ending::SinkFault,
    }
}

/// The ending that a turn makes, if it does.
fn ending_after(turn: Turn) -> Option<Ending>
    ensures { result ≡ ending_after turn }
{
    match turn {
        Turn::Went => None,
        Turn::Idle => None,
        Turn::Ended(end) => Some(ending_in(end)),
        Turn::StoreFault => Some(Ending::StoreFault),
        Turn::SinkFault => Some(Ending::SinkFault),
        Turn::NoMemory => Some(Ending::NoMemory),
    }
}

/// Whether there was no memory for a move.
pub fn is_starved(ending: Option<Ending>) -> bool
    ensures { result ≡ is_starved ending }
{
    match ending {
        None => false,
        Some(Ending::NoMemory) => true,
        Some(Ending::Exited(_)) => false,
        Some(Ending::Trapped(_, _)) => false,
        Some(Ending::TurnsOver(_)) => false,
        Some(Ending::StoreFault) => false,
        Some(Ending::SinkFault) => false,
    }
}

/// Makes a move, with pages kept spare before it, and answers how it ends the run, if it does.
pub fn advance<D: Store, O: Sink, E: Sink>(
    runner: &mut Runner,
    step: Move,
    store: &mut D,
    out: &mut O,
    err: &mut E,
) -> Option<Ending>
    requires few { runner.old.counts.moves < 2 ^ 63 }
    ensures moves { runner.new.counts.moves ≤ runner.old.counts.moves + 1 }
    ensures files { (D.state store.new).files ≡ (D.state store.old).files }
    ensures advances { Advances step result runner.old runner.new
        (record { store = D.state store.old; out = O.state out.old; err = E.state err.old })
        (record { store = D.state store.new; out = O.state out.new; err = E.state err.new }) }
    ensures later { IsLater (record { store = D.state store.old; out = O.state out.old; err = E.state err.old })
        (record { store = D.state store.new; out = O.state out.new; err = E.state err.new }) }
    ensures cause { runner.old.end ≡ None → IfSome result (λ ending. HasCause ending (record { store = D.state store.old; out = O.state out.old; err = E.state err.old })
        (record { store = D.state store.new; out = O.state out.new; err = E.state err.new })) }
    ensures goes_on { result ≡ None → runner.new.end ≡ None }
{
    if !keep_spare(runner) {
        return Some(Ending::NoMemory);
    }
    ending_after(runner.go(step, store, out, err))
}
