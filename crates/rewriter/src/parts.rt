//! The parts of a rewritten program.

ghost use Rattle.std.specs.Prelude.{◌≡◌, ◌≤◌, IfOk};
ghost use Rattle.elf_image.specs.Image.{IsImage, text_words};
ghost use Rattle.elf_writer.specs.ProgramCode.{code_of_text};
ghost use Rattle.elf_writer.specs.RewrittenFile.{IsCodeOf, IsRewritable};
ghost use Rattle.elf_writer.specs.Writing.{listed};
ghost use Rattle.rewriter.specs.Layouts.{layout_of};
ghost use Rattle.rewriter.specs.Rewriting.{RewritesAs};

use crate::layout::layout_of;
use elf_image::{Image, ReadFault, read_as, text};
use elf_writer::Parts;
use hint_stub::stub;
use shadow_text::{blocks, helpers};
use site_finder::{patch, sites};
use spec_base::{Layout, NoMemory, Version};
use std::alloc::Global;

/// The parts of an accepted file, of which these are the bytes and the image.
fn parts_of(
    alloc: Global,
    bytes: &[u8],
    image: Image,
    regions: u32,
    version: Version,
) -> Result<Parts, NoMemory>
    requires image { IsImage bytes.now version image }
    requires some { 1 ≤ regions }
    requires few { regions ≤ 65_536 }
    ensures image { IfOk result (λ parts. parts.image ≡ image) }
    ensures layout { IfOk result (λ parts. parts.layout ≡ layout_of image regions version) }
    ensures code { IfOk result (λ parts. listed parts ≡ code_of_text (layout_of image regions version) (text_words bytes.now image)) }
{
    let layout = layout_of(&image, regions, version);
    let mut words = text(alloc, bytes, &image)?;
    let shadow = blocks(alloc, &words, &layout)?;
    let helpers = helpers(alloc, &layout)?;
    let stub = stub(alloc)?;
    let found = sites(alloc, &words)?;
    patch(&mut words, &found);
    Ok(Parts {
        image,
        layout,
        text: words,
        shadow,
        helpers,
        stub,
    })
}

/// The parts of the rewritten program of a file, whose shadow may copy so many regions: 1 to
/// 65,536. A file that the profile of the version refuses has none, and the first reason is told.
/// Memory is taken only for an accepted file.
pub fn rewrite_as(
    alloc: Global,
    bytes: &[u8],
    regions: u32,
    version: Version,
) -> Result<Parts, ReadFault>
    requires some { 1 ≤ regions }
    requires few { regions ≤ 65_536 }
    ensures answer { RewritesAs bytes.now regions version result }
    ensures rewritable { IfOk result (λ parts. IsRewritable bytes.now parts.image parts.layout) }
    ensures code { IfOk result (λ parts. IsCodeOf parts.layout (listed parts)) }
{
    let image = read_as(alloc, bytes, version)?;
    match parts_of(alloc, bytes, image, regions, version) {
        Ok(parts) => Ok(parts),
        Err(NoMemory) => Err(ReadFault::NoMemory),
    }
}

/// The same under version two.
pub fn rewrite(alloc: Global, bytes: &[u8], regions: u32) -> Result<Parts, ReadFault>
    requires some { 1 ≤ regions }
    requires few { regions ≤ 65_536 }
    ensures answer { RewritesAs bytes.now regions Version.Two result }
    ensures rewritable { IfOk result (λ parts. IsRewritable bytes.now parts.image parts.layout) }
    ensures code { IfOk result (λ parts. IsCodeOf parts.layout (listed parts)) }
{
    rewrite_as(alloc, bytes, regions, Version::Two)
}
