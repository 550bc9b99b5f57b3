//! How a run ends.

use spec_base::Trap;

/// How a run ends.
#[derive(Clone, Copy, Debug, PartialEq, Eq)]
pub enum Ending {
    /// The program exited with this code.
    Exited(u8),
    /// The program trapped at this pc.
    Trapped(Trap, u64),
    /// So many instructions were completed, as many as were allowed.
    TurnsOver(u64),
    /// A look or a fetch for the program failed.
    StoreFault,
    /// A put of the program failed.
    SinkFault,
    /// An allocation was refused.
    NoMemory,
}
