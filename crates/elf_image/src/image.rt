//! The image of an accepted file.

ghost use Rattle.std.specs.Prelude.{◌≡◌, ◌+◌, ◌*◌, ◌++◌, ◌≤◌, ◌<◌, ◌^◌, IfOk, IfErr, Option, Some, None, length};
ghost use Rattle.std.specs.Option.{option_copied};
ghost use Rattle.elf_image.specs.Segments.{first_entries, is_loaded, piece, segment_of, segments_in};
ghost use Rattle.elf_image.specs.Profile.{Answers, code_of, first_refusal, profile, rounded_up};
ghost use Rattle.elf_image.specs.Image.{IsImage, IsOutline, IsTextOf, text_words, words_at};

use crate::fields::word_at;
use crate::header::{FileHeader, PROGRAM_HEADER_BYTES, read_header};
use crate::refusal::Refusal;
use crate::scan::Scan;
use crate::sections::{Span, find_text};
use crate::segments::{ProgramHeader, Segment};
use spec_base::{List, NoMemory, Version};
use std::alloc::Global;

/// A static executable as its file describes it.
#[derive(Debug, Drop)]
pub struct Image {
    /// The address of the first instruction.
    pub entry: u64,
    /// The flags of the ELF header.
    pub flags: u32,
    /// The segments, ascending and without overlap.
    pub segments: List<Segment>,
    /// The first address of the text.
    pub text_start: u64,
    /// The first address after the text.
    pub text_end: u64,
    /// Where the break starts: the end of the highest segment, rounded up to a multiple of 16.
    pub break_start: u64,
}

/// Why a file has no image.
#[derive(Clone, Copy, Debug, PartialEq, Eq)]
pub enum ReadFault {
    /// The profile doesn't accept the file.
    Refused(Refusal),
    /// The file is accepted, and memory was wanting.
    NoMemory,
}

/// What an accepted file shows besides its segments.
#[derive(Clone, Copy, Debug)]
struct Outline {
    header: FileHeader,
    text_start: u64,
    text_end: u64,
    break_start: u64,
}

/// The outline of a file with this header, text and greatest end of a segment.
fn outline_of(header: FileHeader, text: Span, reached: u128) -> Outline
    requires text { text.end < 2 ^ 32 }
    requires reached { reached < 2 ^ 32 }
    ensures { result ≡ record { header = header; text_start = text.start; text_end = text.end; break_start = rounded_up reached } }
{
    Outline {
        header,
        text_start: text.start,
        text_end: text.end as u64,
        break_start: (reached as u64 + 15) / 16 * 16,
    }
}

/// What an accepted file shows besides its segments, or the first reason to refuse it.
fn judge(bytes: &[u8], version: Version) -> Result<Outline, Refusal>
    ensures accepted { IfOk result (λ outline. IsOutline bytes.now version outline) }
    ensures refused { IfErr result (λ refusal. first_refusal bytes.now version ≡ Some refusal) }
{
    let header = read_header(bytes)?;
    let start = header.e_phoff as usize;
    let scan = Scan::of(bytes, start, header.e_phnum, version.image_limit());
    let code = scan.code()?;
    let text = find_text(bytes, &header, &code)?;
    Ok(outline_of(header, text, scan.reached))
}

/// Appends the segment of an entry, where it has one.
fn push_segment(segments: &mut Vec<Segment>, entry: &ProgramHeader) -> Result<(), NoMemory>
    ensures { IfOk result (λ _. segments.new.items ≡ segments.old.items ++ piece (is_loaded entry.now) (segment_of entry.now)) }
{
    if entry.is_loaded() {
        segments.push(entry.segment())?;
    }
    Ok(())
}

/// The segments that so many entries from an offset on name, in order.
pub(crate) fn collect_segments(
    alloc: Global,
    bytes: &[u8],
    start: usize,
    count: u16,
) -> Result<List<Segment>, NoMemory>
    requires { start + 56 * count ≤ length bytes.now }
    ensures { IfOk result (λ segments. segments ≡ segments_in (first_entries start count bytes.now)) }
{
    let mut segments = Vec::with_capacity(alloc, usize::from(count))?;
    for i in 0..usize::from(count) {
        let entry = ProgramHeader::read(bytes, start + PROGRAM_HEADER_BYTES * i);
        push_segment(&mut segments, &entry)?;
    }
    Ok(List { items: segments })
}

/// The image of a file that the profile of a version accepts, or the first reason to refuse it.
/// Memory is taken only for an accepted file.
pub fn read_as(alloc: Global, bytes: &[u8], version: Version) -> Result<Image, ReadFault>
    ensures answer { Answers (profile bytes.now version) result }
    ensures image { IfOk result (λ image. IsImage bytes.now version image) }
{
    let outline = match judge(bytes, version) {
        Ok(outline) => outline,
        Err(refusal) => return Err(ReadFault::Refused(refusal)),
    };
    let start = outline.header.e_phoff as usize;
    match collect_segments(alloc, bytes, start, outline.header.e_phnum) {
        Ok(segments) => Ok(Image {
            entry: outline.header.e_entry,
            flags: outline.header.e_flags,
            segments,
            text_start: outline.text_start,
            text_end: outline.text_end,
            break_start: outline.break_start,
        }),
        Err(NoMemory) => Err(ReadFault::NoMemory),
    }
}

/// The image of a file under version two.
pub fn read(alloc: Global, bytes: &[u8]) -> Result<Image, ReadFault>
    ensures answer { Answers (profile bytes.now Version.Two) result }
    ensures image { IfOk result (λ image. IsImage bytes.now Version.Two image) }
{
    read_as(alloc, bytes, Version::Two)
}

/// The first segment that is executable and has a file part.
fn first_code(segments: &[Segment]) -> Option<&Segment>
    ensures { option_copied result ≡ code_of segments.now }
{
    segments.iter().find(|segment| segment.is_code())
}

/// So many words from an offset on.
fn words_at(alloc: Global, bytes: &[u8], offset: usize, count: usize) -> Result<Vec<u32>, NoMemory>
    requires { offset + 4 * count ≤ length bytes.now }
    ensures { IfOk result (λ words. words.items ≡ words_at offset count bytes.now) }
{
    let mut words = Vec::with_capacity(alloc, count)?;
    for i in 0..count {
        words.push(word_at(bytes, offset + 4 * i))?;
    }
    Ok(words)
}

/// The words of an image's text, as they stand in its file. The bytes are those that the image
/// was read from.
pub fn text(alloc: Global, bytes: &[u8], image: &Image) -> Result<Vec<u32>, NoMemory>
    requires { IsTextOf bytes.now image.now }
    ensures { IfOk result (λ words. words.items ≡ text_words bytes.now image.now) }
{
    let code = first_code(&image.segments.items).unwrap();
    let offset = code.offset + (image.text_start - code.address);
    let count = (image.text_end - image.text_start) / 4;
    words_at(alloc, bytes, offset as usize, count as usize)
}
