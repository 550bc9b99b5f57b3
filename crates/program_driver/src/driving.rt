//! The moves of a pattern.

ghost use Rattle.std.specs.Prelude.{◌≡◌, ◌≤◌, ◌+◌, ◌^◌, length, None, IfSome};
ghost use Rattle.command_words.specs.Limits.{IsPattern};
ghost use Rattle.runner.specs.Causes.{IsLater};
ghost use Rattle.run_promises.specs.Schedules.{MovesTo};
ghost use Rattle.plain_runner.specs.Runs.{Outside};
ghost use Rattle.program_driver.specs.Causes.{HasCause};
ghost use Rattle.program_driver.specs.Progress.{MakesStretch, MakesFront, MakesSome, StopsOnly};
ghost use Rattle.program_driver.specs.Runs.{Drives};

use crate::advancing::advance;
use crate::schedule::Schedule;
use plain_runner::Ending;
use runner::Runner;
use spec_base::{List, Move};
use world_io::{Sink, Store};

/// Makes the first of so many equal moves at once, as far as they are words that ask nothing. Answers how
/// many it made: all, or those before the first that isn't such a word. A finish of a fetch is never made so.
fn make_at_once(runner: &mut Runner, step: Move, most: u64) -> u64
    requires few { runner.old.counts.moves + most ≤ 2 ^ 63 }
    ensures most { result ≤ most }
    ensures goes { MakesSome step most result runner.old runner.new }
    ensures stops { StopsOnly step most result runner.old runner.new }
    ensures moves { runner.new.counts.moves ≡ runner.old.counts.moves + result }
    ensures end { runner.new.end ≡ runner.old.end }
{
    if most == 0 || runner.rests(step) {
        return 0;
    }
    match step {
        Move::O => runner.go_own(most),
        Move::S => runner.go_shadow(most),
        Move::T => runner.go_shadow(most),
        Move::D => 0,
    }
}

/// Makes a move so many times, at once where it does nothing but count, and many of its words at once.
/// Answers how that ends the run, if it does.
fn drive_stretch<D: Store, O: Sink, E: Sink>(
    runner: &mut Runner,
    step: Move,
    count: u64,
    store: &mut D,
    out: &mut O,
    err: &mut E,
) -> Option<Ending>
    requires few { runner.old.counts.moves + count ≤ 2 ^ 63 }
    ensures moves { runner.new.counts.moves ≤ runner.old.counts.moves + count }
    ensures goes { MakesStretch step count result runner.old runner.new
        (record { store = D.state store.old; out = O.state out.old; err = E.state err.old })
        (record { store = D.state store.new; out = O.state out.new; err = E.state err.new }) }
    ensures later { IsLater (record { store = D.state store.old; out = O.state out.old; err = E.state err.old })
        (record { store = D.state store.new; out = O.state out.new; err = E.state err.new }) }
    ensures cause { runner.old.end ≡ None → IfSome result (λ ending. HasCause ending (record { store = D.state store.old; out = O.state out.old; err = E.state err.old })
        (record { store = D.state store.new; out = O.state out.new; err = E.state err.new })) }
    ensures goes_on { runner.old.end ≡ None → result ≡ None → runner.new.end ≡ None }
{
    let mut made = 0;
    while made < count {
        if runner.rests(step) {
            runner.rest(count - made);
            return None;
        }
        if let Some(ending) = advance(runner, step, store, out, err) {
            return Some(ending);
        }
        made += 1;
        made += make_at_once(runner, step, count - made);
    }
    None
}

/// Makes many of the next moves at once, where the shadow isn't running and nothing is in flight: words of
/// the program, and between them moves that do nothing but count.
fn drive_at_once(runner: &mut Runner, schedule: &mut Schedule<'_>)
    requires few { runner.old.counts.moves + length schedule.old ≤ 2 ^ 63 }
    ensures few { runner.new.counts.moves + length schedule.new ≤ 2 ^ 63 }
    ensures shorter { length schedule.new ≤ length schedule.old }
    ensures end { runner.new.end ≡ runner.old.end }
    ensures goes { (here : Outside) → MakesFront schedule.old schedule.new runner.old runner.new here }
{
    if !runner.rests(Move::S) || !runner.rests(Move::D) {
        return;
    }
    let words = runner.go_own(schedule.own_left());
    let moves = schedule.pass_own(words);
    runner.rest(moves - words);
}

/// Makes the moves of a repeated pattern, at most `turns`, over a store and two sinks, up to the first
/// that ends the run. Before each move that is made by itself pages are reserved, where fewer than 17 are
/// spare; `NoMemory` comes where that fails.
pub fn drive<D: Store, O: Sink, E: Sink>(
    runner: &mut Runner,
    pattern: &List<(Move, u32)>,
    turns: u64,
    store: &mut D,
    out: &mut O,
    err: &mut E,
) -> Ending
    requires pattern { IsPattern pattern.now }
    requires few { runner.old.counts.moves + turns ≤ 2 ^ 63 }
    ensures drives { Drives (MovesTo pattern.now turns result) runner.old runner.new
        (record { store = D.state store.old; out = O.state out.old; err = E.state err.old })
        (record { store = D.state store.new; out = O.state out.new; err = E.state err.new }) }
    ensures later { IsLater (record { store = D.state store.old; out = O.state out.old; err = E.state err.old })
        (record { store = D.state store.new; out = O.state out.new; err = E.state err.new }) }
    ensures cause { runner.old.end ≡ None → HasCause result (record { store = D.state store.old; out = O.state out.old; err = E.state err.old })
        (record { store = D.state store.new; out = O.state out.new; err = E.state err.new }) }
{
    let mut schedule = Schedule::new(pattern, turns);
    while let Some((step, count)) = schedule.next_stretch() {
        if let Some(ending) = drive_stretch(runner, step, count, store, out, err) {
            return ending;
        }
        drive_at_once(runner, &mut schedule);
    }
    Ending::TurnsOver(runner.own_done())
}
