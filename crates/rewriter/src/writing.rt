//! The rewritten file of a program, put to a sink.

ghost use Rattle.std.specs.Prelude.{◌≡◌, ◌≤◌, MatchResult};
ghost use Rattle.elf_image.specs.Image.{IsImage};
ghost use Rattle.rewriter.specs.Layouts.{rewritten};
ghost use Rattle.rewriter.specs.Rewriting.{Puts, RewritesTo};

use crate::code::ProgramCode;
use crate::layout::layout_of;
use elf_image::{Image, ReadFault, Refusal, read_as};
use elf_writer::{Buffer, Written, write_from};
use spec_base::{NoMemory, Version};
use std::alloc::Global;
use world_io::Sink;

/// What rewriting a file to a sink came to.
#[derive(Clone, Copy, Debug, PartialEq, Eq)]
pub enum Rewritten {
    /// The whole file was put, of so many bytes.
    Done(u64),
    /// The profile doesn't accept the file, and nothing was put.
    Refused(Refusal),
    /// A put failed, and the sink counted it. A part from the front of the file was put, and nothing
    /// more was offered.
    SinkFault,
    /// The file is accepted, memory was wanting, and nothing was put.
    NoMemory,
}

/// Puts the rewritten file of an accepted file, of which these are the bytes and the image.
fn put_image<O: Sink>(
    alloc: Global,
    bytes: &[u8],
    image: &Image,
    regions: u32,
    version: Version,
    sink: &mut O,
) -> Result<Written, NoMemory>
    requires image { IsImage bytes.now version image.now }
    requires some { 1 ≤ regions }
    requires few { regions ≤ 65_536 }
    ensures { MatchResult result
        (λ written. Puts (O.state sink.old) (rewritten bytes.now image.now regions version) written (O.state sink.new))
        (λ _. O.state sink.new ≡ O.state sink.old) }
{
    let layout = layout_of(image, regions, version);
    let code = ProgramCode::new(alloc, bytes, image, regions, version, false)?;
    let mut buffer = Buffer::new(alloc)?;
    Ok(write_from(bytes, image, &layout, &code, &mut buffer, sink))
}

/// Puts the rewritten file of a program, whose shadow may copy so many regions: 1 to 65,536. Beside
/// the bytes it holds the image, the words of helpers and stub, and a buffer of 65,536 bytes. A
/// sink whose sure room is at least the file's length never fails.
pub fn rewrite_to<O: Sink>(
    alloc: Global,
    bytes: &[u8],
    regions: u32,
    version: Version,
    sink: &mut O,
) -> Rewritten
    requires some { 1 ≤ regions }
    requires few { regions ≤ 65_536 }
    ensures { RewritesTo bytes.now regions version result (O.state sink.old) (O.state sink.new) }
{
    let image = match read_as(alloc, bytes, version) {
        Ok(image) => image,
        Err(ReadFault::Refused(refusal)) => return Rewritten::Refused(refusal),
        Err(ReadFault::NoMemory) => return Rewritten::NoMemory,
    };
    match put_image(alloc, bytes, &image, regions, version, sink) {
        Ok(Written::Done(length)) => Rewritten::Done(length),
        Ok(Written::SinkFault) => Rewritten::SinkFault,
        Err(NoMemory) => Rewritten::NoMemory,
    }
}
