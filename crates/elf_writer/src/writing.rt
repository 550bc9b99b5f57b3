//! The rewritten file, from its first byte to its last.

ghost use Rattle.std.specs.Prelude.{◌≡◌, length, ◌≤◌, IfOk, is_ok};
ghost use Rattle.world_io.specs.Texts.{PutsText, IsPutSurely};
ghost use Rattle.elf_writer.specs.FileParts.{file_length};
ghost use Rattle.elf_writer.specs.RewrittenFile.{IsCodeOf, IsRewritable, IsWritable, rewritten_file};
ghost use Rattle.elf_writer.specs.Streams.{Gives, PutsBuffered, PutsRests};
ghost use Rattle.elf_writer.specs.Writing.{IfDone, is_done, listed};

use crate::body::{place_code, place_segments};
use crate::buffer::{Buffer, Staging, Window};
use crate::source::{CodeSource, Parts};
use crate::stream::{SinkFault, flush};
use crate::table::{body_start, give_front, length_of};
use elf_image::Image;
use spec_base::Layout;
use world_io::Sink;

/// What writing a file came to.
#[derive(Clone, Copy, Debug, PartialEq, Eq)]
pub enum Written {
    /// The whole file was put, of so many bytes.
    Done(u64),
    /// A put failed, and the sink counted it. A part from the front of the file was put, and nothing
    /// more was offered.
    SinkFault,
}

/// Gives the whole file. The answer is its length.
fn give_file<C: CodeSource, S: Staging, O: Sink>(
    staging: &mut S,
    sink: &mut O,
    bytes: &[u8],
    image: &Image,
    layout: &Layout,
    code: &C,
) -> Result<u64, SinkFault>
    requires rewritable { IsRewritable bytes.now image.now layout.now }
    requires code { IsCodeOf layout.now (C.code code.now) }
    ensures gives { Gives (S.size staging.old) (S.held staging.old) (O.state sink.old) (rewritten_file bytes.now image.now layout.now (C.code code.now)) (is_ok result) (S.held staging.new) (O.state sink.new) }
    ensures size { S.size staging.new ≡ S.size staging.old }
    ensures length { IfOk result (λ n. n ≡ file_length image.now layout.now) }
{
    give_front(staging, sink, image, layout)?;
    let segments = &image.segments.items;
    let start = body_start(image);
    let end = place_segments(staging, sink, bytes, image, code, segments, start)?;
    place_code(staging, sink, layout, code, end)
}

/// Puts what is held back, behind which nothing comes.
fn finish<S: Staging, O: Sink>(staging: &mut S, sink: &mut O, file_length: u64) -> Written
    ensures puts { PutsRests (O.state sink.old) (S.held staging.old) (is_done result) (O.state sink.new) }
    ensures few { length (S.held staging.old) ≤ S.size staging.old }
    ensures size { S.size staging.new ≡ S.size staging.old }
    ensures length { IfDone result (λ n. n ≡ file_length) }
{
    match flush(staging, sink) {
        Ok(()) => Written::Done(file_length),
        Err(SinkFault) => Written::SinkFault,
    }
}

/// Puts the whole file through an empty buffer.
fn put_file<C: CodeSource, S: Staging, O: Sink>(
    staging: &mut S,
    sink: &mut O,
    bytes: &[u8],
    image: &Image,
    layout: &Layout,
    code: &C,
) -> Written
    requires rewritable { IsRewritable bytes.now image.now layout.now }
    requires code { IsCodeOf layout.now (C.code code.now) }
    ensures buffered { PutsBuffered (S.size staging.old) (O.state sink.old) (rewritten_file bytes.now image.now layout.now (C.code code.now)) (is_done result) (O.state sink.new) }
    ensures size { S.size staging.new ≡ S.size staging.old }
    ensures length { IfDone result (λ n. n ≡ file_length image.now layout.now) }
{
    staging.clear();
    match give_file(staging, sink, bytes, image, layout, code) {
        Ok(length) => finish(staging, sink, length),
        Err(SinkFault) => Written::SinkFault,
    }
}

/// The length of the rewritten file of these parts.
pub fn length(parts: &Parts) -> u64
    requires { IsWritable parts.now.image parts.now.layout }
    ensures { result ≡ file_length parts.now.image parts.now.layout }
{
    length_of(&parts.image, &parts.layout)
}

/// Puts the rewritten file of these parts, whose image was read from the bytes. It takes no memory.
/// A sink whose sure room is at least the file's length never fails.
pub fn write<O: Sink>(bytes: &[u8], parts: &Parts, sink: &mut O) -> Written
    requires rewritable { IsRewritable bytes.now parts.now.image parts.now.layout }
    requires code { IsCodeOf parts.now.layout (listed parts.now) }
    ensures puts { PutsText (O.state sink.old) (rewritten_file bytes.now parts.now.image parts.now.layout (listed parts.now)) (is_done result) (O.state sink.new) }
    ensures length { IfDone result (λ n. n ≡ length (rewritten_file bytes.now parts.now.image parts.now.layout (listed parts.now))) }
    ensures known { length (rewritten_file bytes.now parts.now.image parts.now.layout (listed parts.now)) ≡ file_length parts.now.image parts.now.layout }
    ensures sure { IsPutSurely (O.state sink.old).room (file_length parts.now.image parts.now.layout) (is_done result) }
{
    let mut window = Window::new();
    put_file(&mut window, sink, bytes, &parts.image, &parts.layout, parts)
}

/// Puts the rewritten file of an image, which was read from the bytes, with the code of a source. It
/// takes no memory. Each put offers what is left of the next 65,536 bytes of the file, or of its
/// end. A sink whose sure room is at least the file's length never fails.
pub fn write_from<C: CodeSource, O: Sink>(
    bytes: &[u8],
    image: &Image,
    layout: &Layout,
    code: &C,
    buffer: &mut Buffer,
    sink: &mut O,
) -> Written
    requires rewritable { IsRewritable bytes.now image.now layout.now }
    requires code { IsCodeOf layout.now (C.code code.now) }
    ensures puts { PutsText (O.state sink.old) (rewritten_file bytes.now image.now layout.now (C.code code.now)) (is_done result) (O.state sink.new) }
    ensures length { IfDone result (λ n. n ≡ length (rewritten_file bytes.now image.now layout.now (C.code code.now))) }
    ensures known { length (rewritten_file bytes.now image.now layout.now (C.code code.now)) ≡ file_length image.now layout.now }
    ensures sure { IsPutSurely (O.state sink.old).room (file_length image.now layout.now) (is_done result) }

    // What each put offered.
    ensures buffered { PutsBuffered buffer.old.size (O.state sink.old) (rewritten_file bytes.now image.now layout.now (C.code code.now)) (is_done result) (O.state sink.new) }
    ensures size { buffer.new.size ≡ buffer.old.size }
{
    put_file(buffer, sink, bytes, image, layout, code)
}
