//! What is promised where a rewritten program is run over a store and two sinks by a schedule: it does
//! as by itself, its shadow is bounded and its hints are true at each moment, and it gets on. The
//! commands `run`, `trace` and `demo` are to cite it: their moves are shown to be `MovesTo` of
//! specs/Schedules, and these laws say what that comes to. The functions do nothing: their contracts
//! are the laws, whose statements stand in specs/Laws.
#![tactic(auto)]

ghost use Rattle.run_promises.specs.Laws.{RunsKeep, PutsAreOutputs, StoreFaultIsLast, MovesAreAsPlain, MovesGetOn, MovesFinish};

use proved_laws::{hinted, preserved};

/// At each moment of every run of an accepted program: it does as by itself, at most the layout's
/// regions are in use, the hints are the next reads, and the shadow's words are bounded and follow the
/// run from the restart.
pub fn runs_keep()
    ensures { RunsKeep }
{
    preserved();
    hinted();
}

/// What a program has put is what its puts took. A put that failed is the last and ended the run, and
/// so is a call on the store that ended it.
pub fn faults_are_last()
    ensures puts { PutsAreOutputs }
    ensures store { StoreFaultIsLast }
{}

/// Where the moves of a pattern are made over a store and two sinks, the sinks take what the program
/// puts by itself, in the same puts, and its end is the one that is told. Where all turns are over,
/// 200 rounds of the pattern have completed an instruction. Where the sinks take all, no call on the
/// store ends the run and memory is had, a program that comes to an end is run to that end, if there
/// are rounds for one instruction more.
pub fn moves_are_as_plain()
    ensures plain { MovesAreAsPlain }
    ensures rounds { MovesGetOn }
    ensures finish { MovesFinish }
{}
