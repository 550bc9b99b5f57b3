//! The code of a rewritten program, made from the text in the original file.

ghost use Rattle.std.specs.Prelude.{◌≡◌, ◌+◌, ◌-◌, ◌*◌, ◌/◌, ◌<◌, ◌≤◌, IfOk, length, slice_index};
ghost use Rattle.std.specs.Option.{option_copied};
ghost use Rattle.elf_image.specs.Fields.{word_at};
ghost use Rattle.elf_image.specs.Image.{IsImage, IsTextOf, text_words, words_at};
ghost use Rattle.elf_image.specs.Profile.{code_of};
ghost use Rattle.elf_image.specs.Segments.{is_code};
ghost use Rattle.rewriter.specs.Layouts.{layout_of};
ghost use Rattle.rewriter.specs.Sources.{code_from, original_word, originals};

use crate::layout::{layout_of, text_count};
use byteorder::{ByteOrder, LittleEndian};
use elf_image::{Image, Segment};
use elf_writer::{CodeSource, patch_word, ungate_word};
use hint_stub::stub;
use rv_decode::decode;
use shadow_text::{guard_block, helpers};
use spec_base::{Layout, NoMemory, Version};
use std::alloc::Global;
use std::marker::Model;

/// The flag of a segment that is executable.
const PF_X: u32 = 1;

/// The code of an accepted file. Each word of the patched text and each block of the shadow text is
/// made from the file's bytes when it is asked for; of the code it holds the words of helpers and
/// stub alone.
#[derive(Drop)]
pub struct ProgramCode<'a> {
    bytes: &'a [u8],
    offset: usize,
    layout: Layout,
    gated: bool,
    helpers: Vec<u32>,
    stub: Vec<u32>,
}

impl<'a> Model for ProgramCode<'a> {
    ghost use Rattle.elf_image.specs.Image.{words_at};
    ghost use Rattle.elf_writer.specs.FileParts.{text_count};
    ghost use Rattle.rewriter.specs.Sources.{IsHeld, Source, originals};

    ghost Value = { Source };

    ghost view = { λ c. record { layout = c.layout; words = originals c.gated (words_at c.offset (text_count c.layout) c.bytes.now) } };

    ghost invariant = { λ c. IsHeld c.bytes.now c.offset c.layout c.helpers.items c.stub.items };
}

/// Whether a segment is executable and has a file part.
fn is_code(segment: &Segment) -> bool
    ensures { result ≡ is_code segment.now }
{
    segment.flags & PF_X == PF_X && 0 < segment.length
}

/// The first segment that is executable and has a file part.
fn first_code(segments: &[Segment]) -> Option<&Segment>
    ensures { option_copied result ≡ code_of segments.now }
{
    segments.iter().find(|segment| is_code(segment))
}

/// Where the text of an image stands in its file.
fn text_offset(bytes: &[u8], image: &Image) -> usize
    requires { IsTextOf bytes.now image.now }
    ensures words { words_at result ((image.now.text_end - image.now.text_start) / 4) bytes.now ≡ text_words bytes.now image.now }
    ensures inside { result + (image.now.text_end - image.now.text_start) ≤ length bytes.now }
{
    let code = first_code(&image.segments.items).unwrap();
    (code.offset + (image.text_start - code.address)) as usize
}

/// The word at an offset, the lowest byte first.
#[tactic(auto, using(elf_image::proofs::FieldLemmas::reads_at))]
fn word_at(bytes: &[u8], offset: usize) -> u32
    requires { offset + 4 ≤ length bytes.now }
    ensures { result ≡ word_at offset bytes.now }
{
    LittleEndian::read_u32(&bytes[offset..])
}

/// The word of the original text, of which a file has this one.
fn original_word(gated: bool, word: u32) -> u32
    ensures { result ≡ original_word gated word }
{
    if gated { ungate_word(word) } else { word }
}

impl<'a> ProgramCode<'a> {
    /// The code of the file of an image, of which these are the bytes, for so many regions. Where
    /// that is a rewritten file, its gates are read as the calls that they stand for.
    pub fn new(
        alloc: Global,
        bytes: &'a [u8],
        image: &Image,
        regions: u32,
        version: Version,
        gated: bool,
    ) -> Result<ProgramCode<'a>, NoMemory>
        requires image { IsImage bytes.now version image.now }
        requires some { 1 ≤ regions }
        requires few { regions ≤ 65_536 }
        ensures { IfOk result (λ code. code ≡ record { layout = layout_of image.now regions version; words = originals gated (text_words bytes.now image.now) }) }
    {
        let layout = layout_of(image, regions, version);
        let helpers = helpers(alloc, &layout)?;
        let stub = stub(alloc)?;
        let offset = text_offset(bytes, image);
        Ok(ProgramCode {
            bytes,
            offset,
            layout,
            gated,
            helpers,
            stub,
        })
    }

    /// A word of the original text.
    fn word(&self, index: u64) -> u32
        requires { index < length self.now.words }
        ensures { result ≡ slice_index self.now.words index }
    {
        original_word(
            self.gated,
            word_at(self.bytes, self.offset + 4 * index as usize),
        )
    }
}

impl<'a> CodeSource for ProgramCode<'a> {
    ghost code = { code_from };

    fn text(&self, index: u64) -> u32 {
        patch_word(self.word(index))
    }

    fn shadow(&self, block: u64) -> [u32; 16] {
        if block < text_count(&self.layout) {
            let word = self.word(block);
            let pc = self.layout.text_start + 4 * block;
            shadow_text::block(&decode(word), word, pc, &self.layout)
        } else {
            guard_block()
        }
    }

    fn helper(&self, index: u64) -> u32 {
        self.helpers[index as usize]
    }

    fn stub(&self, index: u64) -> u32 {
        self.stub[index as usize]
    }
}
