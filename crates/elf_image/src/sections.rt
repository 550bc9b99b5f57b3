//! The section header table and the text.

ghost use Rattle.std.specs.Prelude.{◌≡◌, ◌+◌, ◌*◌, ◌≤◌, ◌-◌, IfOk, IfErr, length, Some, None, IsTrue};
ghost use Rattle.elf_image.specs.Header.{file_header};
ghost use Rattle.elf_image.specs.Sections.{chosen, holds_sections, is_entry_of, is_text, is_text_of, joined, section_header, sections_span, text_refusal, text_span, widened};

use crate::fields::{ends_inside, has_bit, xword_at};
use crate::header::FileHeader;
use crate::refusal::Refusal;
use crate::segments::Segment;
use spec_base::MAX_TEXT_BYTES;

/// How many bytes an entry of the section header table has.
const SECTION_HEADER_BYTES: usize = 64;

/// The number of a bit of sh_flags.
const SHF_ALLOC_BIT: u32 = 1;

/// The number of a bit of sh_flags.
const SHF_EXECINSTR_BIT: u32 = 2;

/// The fields of an entry of the section header table that the profile reads (gABI chapter 4,
/// "Sections").
#[derive(Clone, Copy, Debug)]
pub(crate) struct SectionHeader {
    pub(crate) sh_flags: u64,
    pub(crate) sh_addr: u64,
    pub(crate) sh_size: u64,
}

/// The addresses from the first up to the end.
#[derive(Clone, Copy, Debug)]
pub(crate) struct Span {
    pub(crate) start: u64,
    pub(crate) end: u128,
}

impl SectionHeader {
    /// The entry at an offset.
    fn read(bytes: &[u8], at: usize) -> SectionHeader
        requires { at + 64 ≤ length bytes.now }
        ensures { result ≡ section_header at bytes.now }
    {
        SectionHeader {
            sh_flags: xword_at(bytes, at + 8),
            sh_addr: xword_at(bytes, at + 16),
            sh_size: xword_at(bytes, at + 32),
        }
    }

    /// Whether it is loaded, executable and not empty.
    fn is_text(&self) -> bool
        ensures { result ≡ is_text self.now }
    {
        has_bit(self.sh_flags, SHF_ALLOC_BIT)
            && has_bit(self.sh_flags, SHF_EXECINSTR_BIT)
            && 0 < self.sh_size
    }

    /// The least span that has its addresses and those of a span before it.
    fn widen(&self, span: Option<Span>) -> Span
        ensures { result ≡ widened span self.now }
    {
        let end = u128::from(self.sh_addr) + u128::from(self.sh_size);
        match span {
            None => Span {
                start: self.sh_addr,
                end,
            },
            Some(before) => Span {
                start: before.start.min(self.sh_addr),
                end: before.end.max(end),
            },
        }
    }

    /// The span after one more section, which counts where it is text.
    fn join(&self, span: Option<Span>) -> Option<Span>
        ensures { result ≡ joined span self.now }
    {
        if self.is_text() {
            Some(self.widen(span))
        } else {
            span
        }
    }
}

/// Whether there is no section header table, or it has entries of 64 bytes and ends inside a file
/// of so many bytes.
fn holds_sections(header: &FileHeader, file_length: usize) -> bool
    ensures { result ≡ holds_sections header.now file_length }
{
    if header.e_shnum == 0 {
        true
    } else {
        usize::from(header.e_shentsize) == SECTION_HEADER_BYTES
            && ends_inside(
                header.e_shoff,
                SECTION_HEADER_BYTES,
                header.e_shnum,
                file_length,
            )
    }
}

/// The span of the sections that are text, if there are any.
fn sections_span(bytes: &[u8], header: &FileHeader) -> Option<Span>
    requires header { header.now ≡ file_header bytes.now }
    requires table { IsTrue (holds_sections header.now (length bytes.now)) }
    ensures { result ≡ sections_span header.now.e_shnum bytes.now }
{
    let mut span = None;
    if header.e_shnum != 0 {
        let start = header.e_shoff as usize;
        for i in 0..usize::from(header.e_shnum) {
            let section = SectionHeader::read(bytes, start + SECTION_HEADER_BYTES * i);
            span = section.join(span);
        }
    }
    span
}

impl Span {
    /// Whether it is not empty, made of aligned words, inside a segment's file part and at most
    /// 1 MiB long.
    pub(crate) fn is_text_of(self, code: &Segment) -> bool
        ensures { result ≡ is_text_of (Some code.now) self }
    {
        let start = u128::from(self.start);
        start < self.end
            && self.start % 4 == 0
            && self.end % 4 == 0
            && code.address <= self.start
            && self.end <= u128::from(code.address) + u128::from(code.length)
            && self.end - start <= u128::from(MAX_TEXT_BYTES)
    }

    /// Whether an address is aligned and in it.
    pub(crate) fn has_entry(self, entry: u64) -> bool
        ensures { result ≡ is_entry_of self entry }
    {
        self.start <= entry && u128::from(entry) < self.end && entry % 4 == 0
    }
}

/// The text of a file with this executable segment, or the first reason to refuse that the
/// sections, the text and the entry give.
pub(crate) fn find_text(bytes: &[u8], header: &FileHeader, code: &Segment) -> Result<Span, Refusal>
    requires { header.now ≡ file_header bytes.now }
    ensures found { IfOk result (λ span. (text_refusal bytes.now (Some code.now) ≡ None) × (span ≡ text_span bytes.now (Some code.now))) }
    ensures refused { IfErr result (λ refusal. text_refusal bytes.now (Some code.now) ≡ Some refusal) }
{
    if !holds_sections(header, bytes.len()) {
        return Err(Refusal::Sections);
    }
    let text = match sections_span(bytes, header) {
        Some(span) => span,
        None => Span {
            start: code.address,
            end: u128::from(code.address) + u128::from(code.length),
        },
    };
    if !text.is_text_of(code) {
        Err(Refusal::Text)
    } else if !text.has_entry(header.e_entry) {
        Err(Refusal::Entry)
    } else {
        Ok(text)
    }
}
