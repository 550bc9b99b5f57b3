//! A sink in memory with a fixed room, some of whose puts fail or take less than they are offered.
ghost use Rattle.std.specs.Prelude.{◌≡◌, ◌≤◌, ◌<◌, ◌+◌, ◌-◌, ◌^◌, [], length, min, max, IfOk, slice_get};
ghost use Rattle.world_io.specs.Puts.{PutSays, Fits};
ghost use Rattle.world_io.specs.Buffers.{told_of_mem, PutsListed, taken_count};

use crate::sink::{Put, Sink};
use spec_base::NoMemory;
use std::alloc::Global;
use std::marker::Model;

/// A buffer with a fixed room and two lists by which puts fail or fall short. It tells its bytes,
/// its puts and their numbers, and counts its failures. Where both lists are empty its sure room is the room left.
#[derive(Drop)]
pub struct MemSink {
    bytes: Vec<u8>,
    puts: Vec<(usize, usize)>,
    left: usize,
    number: u64,
    fails: Vec<u64>,
    most: Vec<usize>,
    faults: u64,
}

impl Model for MemSink {
    ghost use Rattle.std.specs.Prelude.{◌≤◌, ◌+◌, vec_len, vec_capacity};
    ghost use Rattle.world_io.specs.Buffers.{MemSinkState};

    ghost Value = { MemSinkState };

    ghost view = { λ s. record {
      bytes = s.bytes.items;
      puts = s.puts.items;
      left = s.left;
      number = s.number;
      fails = s.fails.items;
      most = s.most.items;
      faults = s.faults;
    } };

    ghost invariant = { λ s. (vec_len s.bytes + s.left ≤ vec_capacity s.bytes) × (vec_len s.puts + s.left ≤ vec_capacity s.puts) };
}

impl MemSink {
    /// A sink with room for `room` bytes. Puts of at least one byte are numbered from 1. Put number i
    /// fails where `fails` lists i or no room is left. Else it takes the least of its length and the
    /// room left, and where `most` has an i-th number, at most that many bytes, but at least one.
    /// No put takes memory.
    pub fn new(
        alloc: Global,
        room: usize,
        fails: Vec<u64>,
        most: Vec<usize>,
    ) -> Result<MemSink, NoMemory>
        ensures { IfOk result (λ sink. sink ≡ record { bytes = []; puts = []; left = room; number = 0; fails = fails.items; most = most.items; faults = 0 }) }
    {
        let bytes = Vec::with_capacity(alloc, room)?;
        let puts = Vec::with_capacity(alloc, room)?;
        Ok(MemSink {
            bytes,
            puts,
            left: room,
            number: 0,
            fails,
            most,
            faults: 0,
        })
    }

    /// The bytes that were taken.
    pub fn bytes(&self) -> &[u8]
        ensures { result.now ≡ self.now.bytes }
    {
        &self.bytes
    }
}

// How many bytes put number `number` takes of `offered`.
fn count_for(most: &[usize], number: u64, offered: usize, left: usize) -> usize
    requires number { 0 < number }
    requires offered { 0 < offered }
    requires left { 0 < left }
    ensures count { result ≡ taken_count most.now number offered left }
    ensures some { 0 < result }
    ensures few { result ≤ offered }
    ensures room { result ≤ left }
{
    let fits = offered.min(left);
    match most.get((number - 1) as usize) {
        Some(&most) => fits.min(most.max(1)),
        None => fits,
    }
}

impl Sink for MemSink {
    ghost state = { told_of_mem };

    fn put(&mut self, bytes: &[u8]) -> Put
        ensures some { 0 < length bytes.now → PutSays (told_of_mem self.old) bytes.now result (told_of_mem self.new) }
        ensures none { length bytes.now ≡ 0 → (result ≡ Put.Took 0) × (self.new ≡ self.old) }
        ensures sure { Fits (told_of_mem self.old).room (length bytes.now) → result ≡ Put.Took (length bytes.now) }

        // Which puts fail and how much they take, and what the sink is then.
        ensures listed { 0 < length bytes.now → PutsListed self.old bytes.now result self.new }
    {
        if bytes.is_empty() {
            return Put::Took(0);
        }
        self.number = self.number.saturating_add(1);
        if self.left == 0 || self.fails.contains(&self.number) {
            self.faults = self.faults.saturating_add(1);
            return Put::Failed;
        }
        let count = count_for(&self.most, self.number, bytes.len(), self.left);
        self.left -= count;
        let _ = self.bytes.extend_from_slice(&bytes[..count]);
        let _ = self.puts.push((bytes.len(), count));
        Put::Took(count)
    }
}
