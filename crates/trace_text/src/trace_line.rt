//! What a line of a trace says.

use spec_base::Note;

/// What a line says behind its two counts.
#[derive(Clone, Copy, Debug, PartialEq, Eq)]
pub enum TraceBody {
    /// What happened in a move. Of a put, the bytes stand in the line alone.
    Note(Note),
    /// Instruction number so many is the first to use a byte that a skipped read left unfilled.
    Use(u64),
    /// The turns are over.
    Turns,
}

/// A line of a trace.
#[derive(Clone, Copy, Debug, PartialEq, Eq)]
pub struct TraceLine {
    /// How many instructions the program has completed.
    pub own: u64,
    /// How many instructions the shadow has completed since its restart.
    pub shadow: u64,
    pub body: TraceBody,
}
