//! What no cache run again from a trace can do.
#![tactic(auto)]

ghost use Rattle.plan_laws.specs.Replays.{NoReplayFetchesLess, NoTraceFetchesLess};

/// No cache run again from the lines of a trace fetches less often than the plan of as many blocks
/// does, whatever its queue holds and however long a fetch takes.
#[tactic(auto, using(crate::proofs::NoLess::no_replay_fetches_less))]
pub fn no_replay_fetches_less()
    ensures { NoReplayFetchesLess }
{}

/// For every trace the least number of fetches of as many blocks is at most the fetches of its replay,
/// whatever its queue holds and however long a fetch takes.
pub fn no_trace_fetches_less()
    ensures { NoTraceFetchesLess }
{}
