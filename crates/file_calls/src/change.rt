//! What a call makes of the descriptors and of the break.

use crate::descriptor::Descriptor;

/// What a call makes of the descriptors and of the break: at most one of them becomes another.
#[derive(Clone, Copy, Debug)]
pub enum Change {
    /// All stay.
    Nothing,
    /// The descriptor of this number becomes another; there is none of 32 or more.
    Slot(u64, Descriptor),
    /// The break stands at this address.
    MoveBreak(u64),
}
