//! What a descriptor stands for.

ghost use Rattle.std.specs.Prelude.{◌≡◌, ◌<◌, ◌^◌};
ghost use Rattle.file_calls.specs.Shown.{is_free};

use spec_base::Name;
use std::marker::Model;

/// A file that is open for reading. Its size and its offset, in bytes, are below 2^56.
#[derive(Clone, Copy, Debug)]
pub struct OpenFile {
    name: Name,
    size: u64,
    offset: u64,
}

impl Model for OpenFile {
    ghost use Rattle.std.specs.Prelude.{ℕ, ◌<◌, ◌^◌};
    ghost use Rattle.file_calls.specs.FileState.{FileState};

    ghost Value = { FileState };

    ghost view = { λ f. record { name = f.name; size = f.size; offset = f.offset } };

    ghost invariant = { λ f. (f.size < 2 ^ 56) × (f.offset < 2 ^ 56) };

    ghost inverse = { λ v. record { name = v.name; size = v.size; offset = v.offset } };
}

impl OpenFile {
    /// A file at this offset.
    pub fn new(name: Name, size: u64, offset: u64) -> OpenFile
        requires size { size < 2 ^ 56 }
        requires offset { offset < 2 ^ 56 }
        ensures { result ≡ record { name = name; size = size; offset = offset } }
    {
        OpenFile { name, size, offset }
    }

    /// Its name.
    pub fn name(&self) -> Name
        ensures { result ≡ self.now.name }
    {
        self.name
    }

    /// Its size in bytes.
    pub fn size(&self) -> u64
        ensures size { result ≡ self.now.size }
        ensures small { result < 2 ^ 56 }
    {
        self.size
    }

    /// Where the next read begins, in bytes from its start.
    pub fn offset(&self) -> u64
        ensures offset { result ≡ self.now.offset }
        ensures small { result < 2 ^ 56 }
    {
        self.offset
    }
}

/// What a descriptor stands for.
#[derive(Clone, Copy, Debug)]
pub enum Descriptor {
    Free,
    /// Gives and takes nothing.
    Null,
    /// Standard output.
    Out,
    /// Standard error.
    Err,
    File(OpenFile),
}

impl Descriptor {
    /// Whether it is free.
    pub fn is_free(&self) -> bool
        ensures { result ≡ is_free self.now }
    {
        matches!(self, Descriptor::Free)
    }
}
