//! A sink in memory that takes whole pieces.
ghost use Rattle.std.specs.Prelude.{◌≡◌, ◌≤◌, ◌<◌, ◌+◌, ◌-◌, ◌^◌, [], length, min, IfOk, vec_len, vec_capacity};
ghost use Rattle.world_io.specs.Puts.{PutSays, Fits};
ghost use Rattle.world_io.specs.Buffers.{told_of_buf, PutsWhole};

use crate::sink::{Put, Sink};
use spec_base::NoMemory;
use std::alloc::Global;
use std::marker::Model;

/// A buffer with a fixed room: a piece that fits in the room left is taken whole, and a longer one
/// fails. It tells its bytes and no puts, and counts its failures.
#[derive(Drop)]
pub struct BufSink {
    bytes: Vec<u8>,
    left: usize,
    faults: u64,
}

impl Model for BufSink {
    ghost use Rattle.std.specs.Prelude.{◌≤◌, ◌+◌, vec_len, vec_capacity};
    ghost use Rattle.world_io.specs.Buffers.{BufSinkState};

    ghost Value = { BufSinkState };

    ghost view = { λ s. record { bytes = s.bytes.items; left = s.left; faults = s.faults } };

    ghost invariant = { λ s. vec_len s.bytes + s.left ≤ vec_capacity s.bytes };
}

impl BufSink {
    /// A sink with room for `room` bytes. No put takes memory.
    pub fn new(alloc: Global, room: usize) -> Result<BufSink, NoMemory>
        ensures { IfOk result (λ sink. sink ≡ record { bytes = []; left = room; faults = 0 }) }
    {
        let bytes = Vec::with_capacity(alloc, room)?;
        Ok(BufSink {
            bytes,
            left: room,
            faults: 0,
        })
    }

    /// The bytes that were taken.
    pub fn bytes(&self) -> &[u8]
        ensures { result.now ≡ self.now.bytes }
    {
        &self.bytes
    }
}

impl Sink for BufSink {
    ghost state = { told_of_buf };

    fn put(&mut self, bytes: &[u8]) -> Put
        ensures some { 0 < length bytes.now → PutSays (told_of_buf self.old) bytes.now result (told_of_buf self.new) }
        ensures none { length bytes.now ≡ 0 → (result ≡ Put.Took 0) × (told_of_buf self.new ≡ told_of_buf self.old) }
        ensures sure { Fits (told_of_buf self.old).room (length bytes.now) → result ≡ Put.Took (length bytes.now) }

        // Which pieces fail, and what the sink is then.
        ensures whole { PutsWhole self.old bytes.now result self.new }
    {
        if self.left < bytes.len() {
            self.faults = self.faults.saturating_add(1);
            return Put::Failed;
        }
        self.left -= bytes.len();
        let _ = self.bytes.extend_from_slice(bytes);
        Put::Took(bytes.len())
    }
}
