//! The parts of the rewritten file, each at its place.

ghost use Rattle.std.specs.Prelude.{◌≡◌, ◌+◌, ◌-◌, ◌*◌, ◌%◌, ◌^◌, ◌≤◌, ◌<◌, length, map, replicate, All, IfOk, IsTrue, is_ok};
ghost use Rattle.spec_base.specs.Layout.{is_lawful};
ghost use Rattle.elf_image.specs.Image.{IsPlaced};
ghost use Rattle.elf_writer.specs.FileParts.{body_from, end_of_parts, file_offset, placed, segment_part, shadow_parts};
ghost use Rattle.elf_writer.specs.RewrittenFile.{HasWords, IsCodeOf, holds_text, segment_bytes, segments_body, shadow_contents, word_bytes};
ghost use Rattle.elf_writer.specs.Streams.{Gives};

use crate::buffer::Staging;
use crate::part::{BLOCK_BYTES, Part};
use crate::source::CodeSource;
use crate::stream::{SinkFault, give, give_zeros};
use crate::words::{give_helpers, give_shadow, give_stub, give_text};
use elf_image::{Image, Segment};
use spec_base::Layout;
use world_io::Sink;

/// Whether the text stands in the file part of a segment.
fn holds_text(image: &Image, segment: &Segment) -> bool
    requires { segment.now.address + segment.now.length < 2 ^ 64 }
    ensures { result ≡ holds_text image.now segment.now }
{
    segment.address <= image.text_start && image.text_end <= segment.address + segment.length
}

/// Gives the bytes of a segment, with the words of the patched text in place of its own.
fn give_segment<C: CodeSource, S: Staging, O: Sink>(
    staging: &mut S,
    sink: &mut O,
    bytes: &[u8],
    image: &Image,
    code: &C,
    segment: &Segment,
) -> Result<(), SinkFault>
    requires in_file { segment.now.offset + segment.now.length ≤ length bytes.now }
    requires near { segment.now.address + segment.now.length < 2 ^ 64 }
    requires ordered { image.now.text_start ≤ image.now.text_end }
    requires words { image.now.text_start + 4 * length (C.code code.now).text ≡ image.now.text_end }
    ensures gives { Gives (S.size staging.old) (S.held staging.old) (O.state sink.old) (segment_bytes bytes.now image.now (C.code code.now).text segment.now) (is_ok result) (S.held staging.new) (O.state sink.new) }
    ensures size { S.size staging.new ≡ S.size staging.old }
{
    let start = segment.offset as usize;
    let original = &bytes[start..start + segment.length as usize];
    if !holds_text(image, segment) {
        return give(staging, sink, original);
    }
    let text_start = (image.text_start - segment.address) as usize;
    let text_end = (image.text_end - segment.address) as usize;
    give(staging, sink, &original[..text_start])?;
    give_text(staging, sink, code, (image.text_end - image.text_start) / 4)?;
    give(staging, sink, &original[text_end..])
}

/// Gives the zeros before a part that has bytes in the file.
fn give_gap<S: Staging, O: Sink>(
    staging: &mut S,
    sink: &mut O,
    part: &Part,
    cursor: u64,
) -> Result<(), SinkFault>
    requires { cursor ≤ 0x1_0000_0000_0000 }
    ensures gives { Gives (S.size staging.old) (S.held staging.old) (O.state sink.old) (replicate (file_offset cursor part.now.p_vaddr - cursor) 0) (is_ok result) (S.held staging.new) (O.state sink.new) }
    ensures size { S.size staging.new ≡ S.size staging.old }
{
    give_zeros(staging, sink, part.offset(cursor) - cursor)
}

/// Gives a segment at its place behind a cursor.
fn place_segment<C: CodeSource, S: Staging, O: Sink>(
    staging: &mut S,
    sink: &mut O,
    bytes: &[u8],
    image: &Image,
    code: &C,
    segment: &Segment,
    cursor: u64,
) -> Result<(), SinkFault>
    requires in_file { 0 < segment.now.length → segment.now.offset + segment.now.length ≤ length bytes.now }
    requires near { segment.now.address + segment.now.length < 2 ^ 64 }
    requires ordered { image.now.text_start ≤ image.now.text_end }
    requires words { image.now.text_start + 4 * length (C.code code.now).text ≡ image.now.text_end }
    requires cursor { cursor ≤ 0x1_0000_0000_0000 }
    ensures gives { Gives (S.size staging.old) (S.held staging.old) (O.state sink.old) (placed cursor (segment_part segment.now) (segment_bytes bytes.now image.now (C.code code.now).text segment.now)) (is_ok result) (S.held staging.new) (O.state sink.new) }
    ensures size { S.size staging.new ≡ S.size staging.old }
{
    if segment.length == 0 {
        return Ok(());
    }
    give_gap(staging, sink, &Part::of_segment(segment), cursor)?;
    give_segment(staging, sink, bytes, image, code, segment)
}

/// Gives the segments, each at its place, where the file goes on at `start`. The answer is where it
/// goes on behind them.
pub(crate) fn place_segments<C: CodeSource, S: Staging, O: Sink>(
    staging: &mut S,
    sink: &mut O,
    bytes: &[u8],
    image: &Image,
    code: &C,
    segments: &[Segment],
    start: u64,
) -> Result<u64, SinkFault>
    requires few { length segments.now ≤ 64 }
    requires placed { All (IsPlaced 0x4000_0000 bytes.now) segments.now }
    requires text { HasWords image.now (C.code code.now).text }
    requires near { start ≤ 4136 }
    ensures gives { Gives (S.size staging.old) (S.held staging.old) (O.state sink.old) (segments_body bytes.now image.now (C.code code.now).text start segments.now) (is_ok result) (S.held staging.new) (O.state sink.new) }
    ensures size { S.size staging.new ≡ S.size staging.old }
    ensures end { IfOk result (λ end. (end ≡ end_of_parts start (map segment_part segments.now)) × (end ≤ 0x1000_0000_0000)) }
{
    let mut cursor = start;
    for segment in segments {
        place_segment(staging, sink, bytes, image, code, segment, cursor)?;
        cursor = Part::of_segment(segment).end(cursor);
    }
    Ok(cursor)
}

/// Gives the shadow text at its place behind a cursor.
fn place_shadow<C: CodeSource, S: Staging, O: Sink>(
    staging: &mut S,
    sink: &mut O,
    code: &C,
    part: &Part,
    cursor: u64,
) -> Result<(), SinkFault>
    requires cursor { cursor ≤ 0x1_0000_0000_0000 }
    requires some { 0 < part.now.p_filesz }
    requires words { 4 * length (C.code code.now).shadow ≡ part.now.p_filesz }
    requires blocks { part.now.p_filesz % 64 ≡ 0 }
    ensures gives { Gives (S.size staging.old) (S.held staging.old) (O.state sink.old) (placed cursor part.now (word_bytes (C.code code.now).shadow)) (is_ok result) (S.held staging.new) (O.state sink.new) }
    ensures size { S.size staging.new ≡ S.size staging.old }
{
    give_gap(staging, sink, part, cursor)?;
    give_shadow(staging, sink, code, part.p_filesz / BLOCK_BYTES)
}

/// Gives the helpers at their place behind a cursor.
fn place_helpers<C: CodeSource, S: Staging, O: Sink>(
    staging: &mut S,
    sink: &mut O,
    code: &C,
    part: &Part,
    cursor: u64,
) -> Result<(), SinkFault>
    requires cursor { cursor ≤ 0x1_0000_0000_0000 }
    requires some { 0 < part.now.p_filesz }
    requires words { 4 * length (C.code code.now).helpers ≡ part.now.p_filesz }
    ensures gives { Gives (S.size staging.old) (S.held staging.old) (O.state sink.old) (placed cursor part.now (word_bytes (C.code code.now).helpers)) (is_ok result) (S.held staging.new) (O.state sink.new) }
    ensures size { S.size staging.new ≡ S.size staging.old }
{
    give_gap(staging, sink, part, cursor)?;
    give_helpers(staging, sink, code, part.p_filesz / 4)
}

/// Gives the stub at its place behind a cursor.
fn place_stub<C: CodeSource, S: Staging, O: Sink>(
    staging: &mut S,
    sink: &mut O,
    code: &C,
    part: &Part,
    cursor: u64,
) -> Result<(), SinkFault>
    requires cursor { cursor ≤ 0x1_0000_0000_0000 }
    requires some { 0 < part.now.p_filesz }
    requires words { 4 * length (C.code code.now).stub ≡ part.now.p_filesz }
    ensures gives { Gives (S.size staging.old) (S.held staging.old) (O.state sink.old) (placed cursor part.now (word_bytes (C.code code.now).stub)) (is_ok result) (S.held staging.new) (O.state sink.new) }
    ensures size { S.size staging.new ≡ S.size staging.old }
{
    give_gap(staging, sink, part, cursor)?;
    give_stub(staging, sink, code, part.p_filesz / 4)
}

/// Gives the shadow's parts, each at its place, where the file goes on at `start`. The answer is
/// where it ends.
pub(crate) fn place_code<C: CodeSource, S: Staging, O: Sink>(
    staging: &mut S,
    sink: &mut O,
    layout: &Layout,
    code: &C,
    start: u64,
) -> Result<u64, SinkFault>
    requires lawful { IsTrue (is_lawful layout.now) }
    requires code { IsCodeOf layout.now (C.code code.now) }
    requires near { start ≤ 0x1000_0000_0000 }
    ensures gives { Gives (S.size staging.old) (S.held staging.old) (O.state sink.old) (body_from start (shadow_parts layout.now) (shadow_contents (C.code code.now))) (is_ok result) (S.held staging.new) (O.state sink.new) }
    ensures size { S.size staging.new ≡ S.size staging.old }
    ensures end { IfOk result (λ end. end ≡ end_of_parts start (shadow_parts layout.now)) }
{
    let (shadow, helpers, stub) = (Part::of_shadow(layout), Part::of_helpers(), Part::of_stub());
    place_shadow(staging, sink, code, &shadow, start)?;
    let helpers_start = shadow.end(start);
    place_helpers(staging, sink, code, &helpers, helpers_start)?;
    let stub_start = helpers.end(helpers_start);
    place_stub(staging, sink, code, &stub, stub_start)?;
    Ok(stub.end(stub_start))
}
