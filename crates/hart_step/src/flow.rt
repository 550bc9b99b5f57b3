//! What an instruction comes to.

use crate::event::Event;

/// What an instruction comes to, of a hart whose pc is kept apart while it goes on.
#[derive(Clone, Copy)]
pub(crate) enum Flow {
    /// The instruction is completed, and the next one is at this pc. The hart's own pc doesn't count.
    Next(u64),
    /// It tells this, which isn't `Done`, and the hart's own pc is where it stands.
    Stop(Event),
}
