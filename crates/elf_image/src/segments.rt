//! The program header table and the segments.

ghost use Rattle.std.specs.Prelude.{◌≡◌, ◌+◌, ◌≤◌, length};
ghost use Rattle.elf_image.specs.Segments.{end_of, is_code, is_dynamic, is_loaded, is_misplaced, is_record, program_header, segment_of};

use crate::fields::{has_bit, word_at, xword_at};
use spec_base::RANGE_START;

const PT_LOAD: u32 = 1;

const PT_DYNAMIC: u32 = 2;

const PT_INTERP: u32 = 3;

/// This project's own: the record of a rewritten file.
const PT_RECORD: u32 = 0x6053_4831;

/// The number of a bit of p_flags.
const PF_X_BIT: u32 = 0;

/// The fields of an entry of the program header table that the profile reads (gABI chapter 5,
/// "Program Header").
#[derive(Clone, Copy, Debug)]
pub(crate) struct ProgramHeader {
    pub(crate) p_type: u32,
    pub(crate) p_flags: u32,
    pub(crate) p_offset: u64,
    pub(crate) p_vaddr: u64,
    pub(crate) p_filesz: u64,
    pub(crate) p_memsz: u64,
}

/// A part of a program's memory, and the bytes of the file that it begins with.
#[derive(Clone, Copy, Debug, PartialEq, Eq)]
pub struct Segment {
    /// Its first address.
    pub address: u64,
    /// How many bytes it has in memory. Those past its file part are zero.
    pub size: u64,
    /// Its flags as the file has them: bit 0 for execute, 1 for write, 2 for read.
    pub flags: u32,
    /// Where its file part begins in the file.
    pub offset: u64,
    /// How many bytes its file part has.
    pub length: u64,
}

impl ProgramHeader {
    /// The entry at an offset.
    pub(crate) fn read(bytes: &[u8], at: usize) -> ProgramHeader
        requires { at + 56 ≤ length bytes.now }
        ensures { result ≡ program_header at bytes.now }
    {
        ProgramHeader {
            p_type: word_at(bytes, at),
            p_flags: word_at(bytes, at + 4),
            p_offset: xword_at(bytes, at + 8),
            p_vaddr: xword_at(bytes, at + 16),
            p_filesz: xword_at(bytes, at + 32),
            p_memsz: xword_at(bytes, at + 40),
        }
    }

    /// Whether it shows that the file is linked dynamically.
    pub(crate) fn is_dynamic(&self) -> bool
        ensures { result ≡ is_dynamic self.now }
    {
        self.p_type == PT_DYNAMIC || self.p_type == PT_INTERP
    }

    /// Whether it is the record of a rewritten file.
    pub(crate) fn is_record(&self) -> bool
        ensures { result ≡ is_record self.now }
    {
        self.p_type == PT_RECORD
    }

    /// Whether it is a segment. All other entries are passed over.
    pub(crate) fn is_loaded(&self) -> bool
        ensures { result ≡ is_loaded self.now }
    {
        self.p_type == PT_LOAD && !(self.p_filesz == 0 && self.p_memsz == 0)
    }

    /// Its segment.
    pub(crate) fn segment(&self) -> Segment
        ensures { result ≡ segment_of self.now }
    {
        Segment {
            address: self.p_vaddr,
            size: self.p_memsz,
            flags: self.p_flags,
            offset: self.p_offset,
            length: self.p_filesz,
        }
    }
}

impl Segment {
    /// The first address after it.
    pub(crate) fn end(&self) -> u128
        ensures { result ≡ end_of self.now }
    {
        u128::from(self.address) + u128::from(self.size)
    }

    /// Whether its file part is longer than it is or isn't in a file of so many bytes, or it
    /// doesn't lie between the start of the program range and a limit.
    pub(crate) fn is_misplaced(&self, limit: u64, file_length: usize) -> bool
        ensures { result ≡ is_misplaced limit file_length self.now }
    {
        let file_end = u128::from(self.offset) + u128::from(self.length);
        self.size < self.length
            || (self.length != 0 && (file_length as u128) < file_end)
            || self.address < RANGE_START
            || u128::from(limit) < self.end()
    }

    /// Whether it is executable and has a file part.
    pub(crate) fn is_code(&self) -> bool
        ensures { result ≡ is_code self.now }
    {
        has_bit(u64::from(self.flags), PF_X_BIT) && 0 < self.length
    }
}
