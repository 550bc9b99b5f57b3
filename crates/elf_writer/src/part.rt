//! The parts of the rewritten file that are loaded, and where they stand in it.

ghost use Rattle.std.specs.Prelude.{◌≡◌, ℕ, ◌+◌, ◌-◌, ◌*◌, ◌/◌, ◌%◌, ◌<◌, ◌≤◌, ◌∷◌, ◌++◌, length, map, drop};
ghost use Rattle.elf_writer.specs.FileParts.{segment_part, code_part, zero_part, shadow_part, helpers_part, stub_part, shadow_parts, text_count, file_offset, end_of_part, rounded_to_8};

use elf_image::Segment;
use spec_base::{
    COPIES_START, COPY_BYTES, HELPER_WORDS, HELPERS_START, LINK_BYTES, LINK_START, LIST_START,
    Layout, SHADOW_START, STUB_START, STUB_WORDS, TABLE_START,
};

const PF_X: u32 = 1;

const PF_W: u32 = 2;

const PF_R: u32 = 4;

/// A part's place in the file agrees with its address modulo so many bytes.
const PAGE_BYTES: u64 = 4096;

/// How many bytes of the shadow text belong to one word of the text.
pub(crate) const BLOCK_BYTES: u64 = 64;

/// The region table has 4 bytes for each 256 of the program range.
const RANGE_BYTES_PER_TABLE_BYTE: u64 = 64;

/// What the table says of a part, but for its place in the file.
#[derive(Clone, Copy, Debug)]
pub(crate) struct Part {
    pub(crate) p_flags: u32,
    pub(crate) p_vaddr: u64,
    pub(crate) p_filesz: u64,
    pub(crate) p_memsz: u64,
}

impl Part {
    /// A segment of the image, which keeps its flags, place and sizes.
    pub(crate) fn of_segment(segment: &Segment) -> Part
        ensures { result ≡ segment_part segment.now }
    {
        Part {
            p_flags: segment.flags,
            p_vaddr: segment.address,
            p_filesz: segment.length,
            p_memsz: segment.size,
        }
    }

    /// Code, which stands whole in the file.
    fn of_code(address: u64, bytes: u64) -> Part
        ensures { result ≡ code_part address bytes }
    {
        Part {
            p_flags: PF_X,
            p_vaddr: address,
            p_filesz: bytes,
            p_memsz: bytes,
        }
    }

    /// The shadow text: a block for each word of the text, and one behind them.
    pub(crate) fn of_shadow(layout: &Layout) -> Part
        requires ordered { layout.now.text_start ≤ layout.now.text_end }
        requires short { layout.now.text_end ≤ 0x1_0000_0000 }
        ensures { result ≡ shadow_part layout.now }
    {
        Part::of_code(SHADOW_START, BLOCK_BYTES * (text_count(layout) + 1))
    }

    /// The helpers.
    pub(crate) fn of_helpers() -> Part
        ensures { result ≡ helpers_part }
    {
        Part::of_code(HELPERS_START, 4 * HELPER_WORDS as u64)
    }

    /// The stub.
    pub(crate) fn of_stub() -> Part
        ensures { result ≡ stub_part }
    {
        Part::of_code(STUB_START, 4 * STUB_WORDS as u64)
    }

    /// Memory that begins as zeros, and has no bytes in the file.
    fn of_zeros(address: u64, bytes: u64) -> Part
        ensures { result ≡ zero_part address bytes }
    {
        Part {
            p_flags: PF_R + PF_W,
            p_vaddr: address,
            p_filesz: 0,
            p_memsz: bytes,
        }
    }

    /// Where it stands in the file, where that goes on at a cursor: the least number that isn't
    /// below the cursor and has the address's remainder by the size of a page.
    pub(crate) fn offset(&self, cursor: u64) -> u64
        requires { cursor ≤ 0x1_0000_0000_0000 }
        ensures value { result ≡ file_offset cursor self.now.p_vaddr }
        ensures after { cursor ≤ result }
        ensures agrees { result % 4096 ≡ self.now.p_vaddr % 4096 }
        ensures least { (n : ℕ) → cursor ≤ n → n % 4096 ≡ self.now.p_vaddr % 4096 → result ≤ n }
    {
        cursor + (self.p_vaddr % PAGE_BYTES + PAGE_BYTES - cursor % PAGE_BYTES) % PAGE_BYTES
    }

    /// Where the file goes on behind it.
    pub(crate) fn end(&self, cursor: u64) -> u64
        requires near { cursor ≤ 0x1_0000_0000_0000 }
        requires short { self.now.p_filesz ≤ 0x4000_0000 }
        ensures { result ≡ end_of_part cursor self.now }
    {
        if self.p_filesz == 0 {
            cursor
        } else {
            self.offset(cursor) + self.p_filesz
        }
    }
}

/// How many words the text has.
pub(crate) fn text_count(layout: &Layout) -> u64
    requires { layout.now.text_start ≤ layout.now.text_end }
    ensures { result ≡ text_count layout.now }
{
    (layout.text_end - layout.text_start) / 4
}

/// The parts of the shadow: its text, helpers and stub; link, table, list and copies.
pub(crate) fn shadow_parts(layout: &Layout) -> [Part; 7]
    requires ordered { layout.now.text_start ≤ layout.now.text_end }
    requires short { layout.now.text_end ≤ 0x1_0000_0000 }
    ensures { result ≡ shadow_parts layout.now }
{
    let regions = u64::from(layout.regions);
    [
        Part::of_shadow(layout),
        Part::of_helpers(),
        Part::of_stub(),
        Part::of_zeros(LINK_START, LINK_BYTES),
        Part::of_zeros(
            TABLE_START,
            layout.version.range_end() / RANGE_BYTES_PER_TABLE_BYTE,
        ),
        Part::of_zeros(LIST_START, (8 + 4 * regions + 7) / 8 * 8),
        Part::of_zeros(COPIES_START, COPY_BYTES * regions),
    ]
}

/// A part of the rewritten file by its index: the segments of the image come before the parts of
/// the shadow.
pub(crate) fn part_at(segments: &[Segment], shadow: &[Part; 7], index: usize) -> Part
    requires inside { index < length segments.now + 7 }
    requires seven { length shadow.now ≡ 7 }
    ensures { drop index (map segment_part segments.now ++ shadow.now) ≡ result ∷ drop (index + 1) (map segment_part segments.now ++ shadow.now) }
{
    match segments.get(index) {
        Some(segment) => Part::of_segment(segment),
        None => shadow[index - segments.len()],
    }
}
