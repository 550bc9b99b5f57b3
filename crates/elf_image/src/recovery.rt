//! What a rewritten file says of itself: the image that it carries, and its layout.

ghost use Rattle.std.specs.Prelude.{◌≡◌, ◌<◌, ◌^◌, false, true, IfOk, IfSome, IfNone};
ghost use Rattle.elf_image.specs.Header.{file_header};
ghost use Rattle.elf_image.specs.Recovery.{IsFront, IsRecovered, RecoversAs, holds_entries, holds_record, holds_front, holds_image, recorded_layout, carried_reach, shows_image};

use crate::fields::{ends_inside, xword_at};
use crate::header::{FileHeader, PROGRAM_HEADER_BYTES};
use crate::image::{Image, collect_segments};
use crate::scan::Scan;
use crate::sections::Span;
use crate::segments::ProgramHeader;
use spec_base::{Layout, MAX_REGIONS, NoMemory, Version};
use std::alloc::Global;

/// A part of a rewritten file. Zero bytes before a part belong to it.
#[derive(Clone, Copy, Debug, PartialEq, Eq)]
pub enum Part {
    /// The record, by which a rewritten file is known.
    Record,
    /// The image that it carries.
    Image,
    /// The header and the program header table.
    Header,
    /// The segments of the image, with the patched text.
    Loaded,
    /// The shadow text.
    Shadow,
    /// The helpers.
    Helpers,
    /// The stub.
    Stub,
    /// What is missing at the end of the file, or too much there.
    Length,
}

/// What a rewritten file was made from. Of the text, each HGATE of the file is a call.
#[derive(Debug, Drop)]
pub struct Recovered {
    /// The image, whose segments stand in the rewritten file.
    pub image: Image,
    /// The layout.
    pub layout: Layout,
}

/// Why nothing is recovered from a file.
#[derive(Clone, Copy, Debug, PartialEq, Eq)]
pub enum RecoverFault {
    /// The file isn't a rewritten one; of its damaged parts this is the first.
    Damaged(Part),
    /// Memory was wanting.
    NoMemory,
}

/// The longest file, in bytes: 2 GiB.
const MAX_REWRITTEN_BYTES: usize = 2_147_483_648;

/// How many bytes the ELF header has, behind which the table stands.
const HEADER_BYTES: usize = 64;

/// Where the entries of the image's segments begin, behind that of the record.
const SEGMENT_ENTRIES: usize = HEADER_BYTES + PROGRAM_HEADER_BYTES;

/// The entries that aren't the image's: the record, and seven parts of the shadow.
const OWN_ENTRIES: u16 = 8;

/// The most entries of the image's segments.
const MAX_SEGMENTS: u16 = 64;

/// How many bytes the record has.
const RECORD_BYTES: u64 = 40;

/// `SPECHINT`, as a number of which the lowest byte comes first.
const RECORD_MAGIC: u64 = 0x544E_4948_4345_5053;

/// Bits of e_flags that aren't those of RVC, of the floating-point ABI and of RVE.
const EF_RISCV_TSO: u32 = 16;

/// Whether there is a table of 9 to 72 entries behind the header, inside a file of so many bytes.
fn holds_entries(header: &FileHeader, file_length: usize) -> bool
    ensures { result ≡ holds_entries header.now file_length }
{
    header.e_phoff == HEADER_BYTES as u64
        && usize::from(header.e_phentsize) == PROGRAM_HEADER_BYTES
        && OWN_ENTRIES < header.e_phnum
        && header.e_phnum <= OWN_ENTRIES + MAX_SEGMENTS
        && ends_inside(
            HEADER_BYTES as u64,
            PROGRAM_HEADER_BYTES,
            header.e_phnum,
            file_length,
        )
}

/// Whether this is the entry of a record, which stands in the file.
fn holds_record(bytes: &[u8], entry: &ProgramHeader) -> bool
    ensures { result ≡ holds_record bytes.now entry.now }
{
    if !entry.is_record()
        || entry.p_filesz != RECORD_BYTES
        || !ends_inside(entry.p_offset, RECORD_BYTES as usize, 1, bytes.len())
    {
        return false;
    }
    let at = entry.p_offset as usize;
    let version = xword_at(bytes, at + 8);
    let regions = xword_at(bytes, at + 32);
    xword_at(bytes, at) == RECORD_MAGIC
        && (version == 1 || version == 2)
        && 1 <= regions
        && regions <= u64::from(MAX_REGIONS)
}

/// Whether a file has the front of a rewritten one: a header that names a table, and a record.
fn holds_front(bytes: &[u8]) -> bool
    ensures { result ≡ holds_front bytes.now }
{
    if MAX_REWRITTEN_BYTES < bytes.len() || bytes.len() < HEADER_BYTES {
        return false;
    }
    holds_entries(&FileHeader::read(bytes), bytes.len())
        && holds_record(bytes, &ProgramHeader::read(bytes, HEADER_BYTES))
}

/// The layout that the record tells.
fn recorded_layout(bytes: &[u8]) -> Layout
    requires { IsFront bytes.now }
    ensures { result ≡ recorded_layout bytes.now }
{
    let at = ProgramHeader::read(bytes, HEADER_BYTES).p_offset as usize;
    Layout {
        text_start: xword_at(bytes, at + 16),
        text_end: xword_at(bytes, at + 24),
        regions: xword_at(bytes, at + 32) as u32,
        version: if xword_at(bytes, at + 8) == 1 {
            Version::One
        } else {
            Version::Two
        },
    }
}

impl Scan {
    /// Whether all entries are segments of an image with this header and text.
    fn shows_image(&self, header: &FileHeader, text: Span) -> bool
        ensures { result ≡ shows_image self.now header.now text }
    {
        let code = match self.code {
            Some(code) => text.is_text_of(&code),
            None => false,
        };
        !self.skipped
            && header.e_flags % EF_RISCV_TSO == 0
            && !self.misplaced
            && self.code_segments == 1
            && code
            && text.has_entry(header.e_entry)
    }
}

/// The greatest end of a segment of the image, if the file carries one.
fn reach_of(bytes: &[u8], header: &FileHeader, layout: &Layout) -> Option<u64>
    requires front { IsFront bytes.now }
    requires header { header.now ≡ file_header bytes.now }
    requires layout { layout.now ≡ recorded_layout bytes.now }
    ensures found { IfSome result (λ n. (holds_image bytes.now ≡ true) × (n ≡ carried_reach bytes.now) × (n < 2 ^ 32)) }
    ensures damaged { IfNone result (holds_image bytes.now ≡ false) }
{
    let limit = layout.version.image_limit();
    let scan = Scan::of(bytes, SEGMENT_ENTRIES, header.e_phnum - OWN_ENTRIES, limit);
    let text = Span {
        start: layout.text_start,
        end: u128::from(layout.text_end),
    };
    if scan.shows_image(header, text) {
        Some(scan.reached as u64)
    } else {
        None
    }
}

/// What a rewritten file was made from, by its header, its table and its record; or the first part
/// of these that is damaged. Memory is taken only where none is.
pub fn recover(alloc: Global, bytes: &[u8]) -> Result<Recovered, RecoverFault>
    ensures answer { RecoversAs bytes.now result }
    ensures holds { IfOk result (λ recovered. IsRecovered bytes.now recovered) }
{
    if !holds_front(bytes) {
        return Err(RecoverFault::Damaged(Part::Record));
    }
    let header = FileHeader::read(bytes);
    let layout = recorded_layout(bytes);
    let Some(reached) = reach_of(bytes, &header, &layout) else {
        return Err(RecoverFault::Damaged(Part::Image));
    };
    let count = header.e_phnum - OWN_ENTRIES;
    match collect_segments(alloc, bytes, SEGMENT_ENTRIES, count) {
        Ok(segments) => Ok(Recovered {
            image: Image {
                entry: header.e_entry,
                flags: header.e_flags,
                segments,
                text_start: layout.text_start,
                text_end: layout.text_end,
                break_start: (reached + 15) / 16 * 16,
            },
            layout,
        }),
        Err(NoMemory) => Err(RecoverFault::NoMemory),
    }
}
