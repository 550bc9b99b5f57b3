//! A writer of the host.
ghost use Rattle.std.specs.Prelude.{◌≡◌, ◌≤◌, ◌<◌, ◌+◌, ◌-◌, ◌^◌, length, min};
ghost use Rattle.world_io.specs.Outside.{untold_sink, Sure};
ghost use Rattle.world_io.specs.Puts.{PutSays, Fits, WritesTaken};

use crate::sink::{Put, Sink};
use std::io::Write;

/// A writer of std. Each put is one write, and fails where that is refused or takes nothing. It
/// tells nothing, has no sure room, and counts its failures.
#[derive(Drop)]
pub struct HostSink<W: Write + Drop> {
    /// Where the bytes go.
    pub writer: W,
    faults: u64,
}

impl<W: Write + Drop> HostSink<W> {
    /// A sink whose bytes go to this writer.
    pub fn new(writer: W) -> Self
        ensures state { ⟦<HostSink<W> as Sink>⟧.state result ≡ untold_sink (Sure 0) 0 }
        ensures writer { result.writer ≡ writer }
    {
        HostSink { writer, faults: 0 }
    }
}

impl<W: Write + Drop> Sink for HostSink<W> {
    ghost state = { λ s. untold_sink (Sure 0) s.faults };

    fn put(&mut self, bytes: &[u8]) -> Put
        ensures some { 0 < length bytes.now → PutSays (untold_sink (Sure 0) self.old.faults) bytes.now result (untold_sink (Sure 0) self.new.faults) }
        ensures none { length bytes.now ≡ 0 → (result ≡ Put.Took 0) × (self.new ≡ self.old) }
        ensures sure { Fits (Sure 0) (length bytes.now) → result ≡ Put.Took (length bytes.now) }

        // What was taken went to the writer.
        ensures writer { WritesTaken (W.contents self.old.writer) bytes.now result (W.contents self.new.writer) }
    {
        if bytes.is_empty() {
            return Put::Took(0);
        }
        match self.writer.write(bytes) {
            Ok(count) if count > 0 => Put::Took(count),
            _ => {
                self.faults = self.faults.saturating_add(1);
                Put::Failed
            }
        }
    }
}
