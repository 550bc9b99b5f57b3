//! Where bytes wait until they are put.

ghost use Rattle.std.specs.Prelude.{◌≡◌, ℕ, ◌+◌, ◌-◌, ◌<◌, ◌≤◌, ◌++◌, [], List, IfOk, length};
ghost use Rattle.elf_writer.specs.Buffers.{BufferState};

use arrayvec::ArrayVec;
use spec_base::NoMemory;
use std::alloc::Global;
use std::marker::Model;

/// How many bytes a [`Buffer`] gathers for each put.
pub const BUFFER_BYTES: usize = 65_536;

/// How many bytes a [`Window`] gathers for each put.
const WINDOW_BYTES: usize = 512;

/// Bytes that are held back until there are `size` of them, or no more come.
pub(crate) trait Staging {
    /// The bytes that are held back.
    ghost held: { Self → List ℕ };

    /// How many fit. It never changes.
    ghost size: { Self → ℕ };

    /// How many more bytes fit.
    fn room(&self) -> usize
        ensures value { result ≡ size self.now - length (held self.now) }
        ensures few { length (held self.now) ≤ size self.now }
        ensures some { 0 < size self.now };

    /// Holds back more bytes, for which there is room.
    fn hold(&mut self, bytes: &[u8])
        requires { length (held self.old) + length bytes.now ≤ size self.old }
        ensures value { held self.new ≡ held self.old ++ bytes.now }
        ensures size { size self.new ≡ size self.old };

    /// The bytes that are held back.
    fn held(&self) -> &[u8]
        ensures value { result.now ≡ held self.now }
        ensures few { length (held self.now) ≤ size self.now };

    /// Lets go of the bytes.
    fn clear(&mut self)
        ensures value { held self.new ≡ [] }
        ensures size { size self.new ≡ size self.old };
}

/// A buffer of 65,536 bytes.
#[derive(Drop)]
pub struct Buffer {
    bytes: Vec<u8>,
    size: usize,
}

impl Model for Buffer {
    ghost use Rattle.std.specs.Prelude.{◌≤◌, ◌<◌, length, vec_len, vec_capacity};
    ghost use Rattle.elf_writer.specs.Buffers.{BufferState};

    ghost Value = { BufferState };

    ghost view = { λ b. record { held = b.bytes.items; size = b.size } };

    ghost invariant = { λ b. (vec_len b.bytes ≤ b.size) × (0 < b.size) × (b.size ≤ 65_536) × (b.size ≤ vec_capacity b.bytes) };
}

impl Buffer {
    /// An empty buffer, which has all its memory.
    pub fn new(alloc: Global) -> Result<Buffer, NoMemory>
        ensures { IfOk result (λ buffer. buffer ≡ record { held = []; size = 65_536 }) }
    {
        Buffer::of_size(alloc, BUFFER_BYTES)
    }

    /// An empty buffer of another size.
    pub(crate) fn of_size(alloc: Global, size: usize) -> Result<Buffer, NoMemory>
        requires some { 0 < size }
        requires few { size ≤ 65_536 }
        ensures { IfOk result (λ buffer. buffer ≡ record { held = []; size = size }) }
    {
        let bytes = Vec::with_capacity(alloc, size)?;
        Ok(Buffer { bytes, size })
    }
}

impl Staging for Buffer {
    ghost held = { λ b. b.held };

    ghost size = { λ b. b.size };

    fn room(&self) -> usize {
        self.size - self.bytes.len()
    }

    fn hold(&mut self, bytes: &[u8]) {
        let _ = self.bytes.extend_from_slice(bytes);
    }

    fn held(&self) -> &[u8] {
        &self.bytes
    }

    fn clear(&mut self) {
        self.bytes.clear();
    }
}

/// A small buffer that takes no memory from an allocator.
#[derive(Drop)]
pub(crate) struct Window {
    bytes: ArrayVec<u8, WINDOW_BYTES>,
}

impl Model for Window {
    ghost use Rattle.std.specs.Prelude.{ℕ, List};

    ghost Value = { List ℕ };

    ghost view = { λ w. w.bytes.items };
}

impl Window {
    /// Without bytes.
    pub(crate) fn new() -> Self
        ensures { result ≡ [] }
    {
        Window {
            bytes: ArrayVec::new(),
        }
    }
}

impl Staging for Window {
    ghost held = { λ w. w };

    ghost size = { λ w. 512 };

    fn room(&self) -> usize {
        self.bytes.remaining_capacity()
    }

    fn hold(&mut self, bytes: &[u8]) {
        let _ = self.bytes.try_extend_from_slice(bytes);
    }

    fn held(&self) -> &[u8] {
        self.bytes.as_slice()
    }

    fn clear(&mut self) {
        self.bytes.clear();
    }
}
