//! Fields of a file, one after another, of which the lowest byte comes first.

ghost use Rattle.std.specs.Prelude.{◌≡◌, ◌+◌, ◌++◌, ◌≤◌, [], length};
ghost use Rattle.elf_writer.specs.Headers.{half, word, xword};

use arrayvec::ArrayVec;
use std::marker::Model;

/// How many bytes fit.
const ROOM: usize = 64;

/// Up to 64 bytes, to which fields are appended.
#[derive(Drop)]
pub(crate) struct Fields {
    bytes: ArrayVec<u8, ROOM>,
}

impl Model for Fields {
    ghost use Rattle.std.specs.Prelude.{ℕ, List};

    ghost Value = { List ℕ };

    ghost view = { λ f. f.bytes.items };
}

impl Fields {
    /// No fields yet.
    pub(crate) fn new() -> Self
        ensures { result ≡ [] }
    {
        Fields {
            bytes: ArrayVec::new(),
        }
    }

    /// Appends bytes.
    pub(crate) fn bytes(mut self, bytes: &[u8]) -> Self
        requires { length self + length bytes.now ≤ 64 }
        ensures { result ≡ self ++ bytes.now }
    {
        let _ = self.bytes.try_extend_from_slice(bytes);
        self
    }

    /// Appends a number of 2 bytes.
    pub(crate) fn half(self, value: u16) -> Self
        requires { length self + 2 ≤ 64 }
        ensures { result ≡ self ++ half value }
    {
        self.bytes(&value.to_le_bytes())
    }

    /// Appends a number of 4 bytes.
    pub(crate) fn word(self, value: u32) -> Self
        requires { length self + 4 ≤ 64 }
        ensures { result ≡ self ++ word value }
    {
        self.bytes(&value.to_le_bytes())
    }

    /// Appends a number of 8 bytes.
    pub(crate) fn xword(self, value: u64) -> Self
        requires { length self + 8 ≤ 64 }
        ensures { result ≡ self ++ xword value }
    {
        self.bytes(&value.to_le_bytes())
    }

    /// The bytes so far.
    pub(crate) fn as_slice(&self) -> &[u8]
        ensures { result.now ≡ self.now }
    {
        self.bytes.as_slice()
    }
}
