//! What a move answers.

ghost use Rattle.std.specs.Prelude.{◌≡◌};
ghost use Rattle.runner_parts.specs.Turns.{turn_after};

use spec_base::Trap;

/// How a run has ended.
#[derive(Clone, Copy, Debug, PartialEq, Eq)]
pub enum End {
    /// The program exited with this code.
    Exit(u8),
    /// The program trapped at this pc.
    Trap(Trap, u64),
    /// The store failed in the own hart's look or in a demanded fetch.
    Store,
    /// A put failed.
    Sink,
}

/// What a move came to.
#[derive(Clone, Copy, Debug, PartialEq, Eq)]
pub enum Turn {
    /// The move was made.
    Went,
    /// The hart waits, the shadow isn't running, or nothing is in flight.
    Idle,
    /// The run has ended, in this move or before. Of faults of the store and of sinks only the moves
    /// behind them tell so.
    Ended(End),
    /// The store failed in this move, and the run is over.
    StoreFault,
    /// A put failed in this move, and the run is over.
    SinkFault,
    /// A page is wanting, and nothing has changed.
    NoMemory,
}

/// What a move comes to that isn't idle, by how the run has ended in it, if it has.
pub fn turn_after(end: &Option<End>) -> Turn
    ensures { result ≡ turn_after end.now }
{
    match end {
        None => Turn::Went,
        Some(End::Exit(code)) => Turn::Ended(End::Exit(*code)),
        Some(End::Trap(cause, pc)) => Turn::Ended(End::Trap(*cause, *pc)),
        Some(End::Store) => Turn::StoreFault,
        Some(End::Sink) => Turn::SinkFault,
    }
}
