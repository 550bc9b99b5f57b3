//! What a run tells of its moves.

use crate::machine::Trap;
use crate::park::Park;
use crate::spot::{BlockSpot, ReadSpot};

/// What a shadow is doing.
#[derive(Clone, Copy, Debug, PartialEq, Eq)]
pub enum ShadowState {
    /// No restart has set it running yet.
    Never,
    /// It executes the words of its code.
    Running,
    /// The stub has stopped it, and a restart follows.
    Stopped,
    /// It waits for the next restart.
    Parked(Park),
}

/// One step of a schedule.
#[derive(Clone, Copy, Debug, PartialEq, Eq)]
pub enum Move {
    /// The own hart executes one word, unless it is stalled.
    O,
    /// The shadow executes one word, if it is running.
    S,
    /// As `S`, but only while the own hart is stalled.
    T,
    /// The demanded fetch finishes, else the oldest queued one.
    D,
}

/// What happened in a move.
#[derive(Clone, Copy, Debug, PartialEq, Eq)]
pub enum Note {
    /// The own hart performed a call: its number, three arguments and answer.
    Call {
        number: u64,
        a0: u64,
        a1: u64,
        a2: u64,
        answer: i64,
    },
    /// The own hart put bytes: `to` is 1 for standard output and 2 for standard error.
    Text {
        to: u8,
        count: usize,
    },
    /// The program ended with this code.
    Exit(u8),
    /// The program trapped at this pc.
    Trap(Trap, u64),
    /// The shadow was restarted before this read.
    Restart(ReadSpot),
    /// This read was performed without a restart: its key and count were the oldest pair of the log.
    Match(ReadSpot),
    /// The shadow gave this read as a hint.
    Hint(ReadSpot),
    /// The shadow's copies got the bytes of this read from the cache.
    Fill(ReadSpot),
    /// The shadow parked.
    Park(Park),
    /// The own hart waits for this block.
    Stall(BlockSpot),
    /// A fetch of this block finished.
    Fetch(BlockSpot),
    /// A queued fetch of this block failed.
    Drop(BlockSpot),
    /// This block was fetched, and stays out of the cache for want of memory.
    Lost(BlockSpot),
    /// The store failed, and the run is over.
    Fault,
}
