//! What a step tells.

use spec_base::{Park, Reg, Trap};

/// What a step of a hart tells whoever steps it.
#[derive(Clone, Copy, Debug, PartialEq, Eq)]
pub enum Event {
    /// The instruction is completed.
    Done,
    /// The pc is at an ECALL, and the hart is unchanged.
    Ecall,
    /// HGATE: the hart has entered the stub.
    Gate,
    /// HLEAVE: the hart is back in the program.
    Leave,
    /// The pc is at an HCALL, and the hart is unchanged. True for HCALL 1.
    Call(bool),
    /// The pc is at an HKEY for this register, and the hart is unchanged.
    Key(Reg),
    /// HSTOP is completed.
    Stop,
    /// HRESTART is completed.
    Restart,
    /// HPARK is completed.
    Park(Park),
    /// The instruction can't complete, and nothing is changed.
    Trap(Trap),
    /// A store wants a frame for its page, and none is spare. Nothing is changed.
    NoMemory,
}
