//! A sink that lets its bytes go.
ghost use Rattle.std.specs.Prelude.{◌≡◌, ◌≤◌, ◌<◌, length};
ghost use Rattle.world_io.specs.Outside.{untold_sink, Endless};

use crate::sink::{Put, Sink};

/// Takes each piece whole and keeps none, so that its bytes can only be counted by the caller. It
/// tells nothing, has room without end, and never fails.
#[derive(Clone, Copy, Debug)]
pub struct CountSink;

impl CountSink {
    /// A sink without a count of its own. It takes no memory.
    pub fn new() -> Self
        ensures { ⟦<CountSink as Sink>⟧.state result ≡ untold_sink Endless 0 }
    {
        CountSink
    }
}

impl Sink for CountSink {
    ghost state = { λ s. untold_sink Endless 0 };

    fn put(&mut self, bytes: &[u8]) -> Put {
        Put::Took(bytes.len())
    }
}
