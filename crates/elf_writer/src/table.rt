//! The front of the rewritten file: header, table and record.

ghost use Rattle.std.specs.Prelude.{◌≡◌, ◌+◌, ◌++◌, ◌≤◌, length, map, All, is_ok};
ghost use Rattle.elf_writer.specs.Headers.{header_bytes};
ghost use Rattle.elf_writer.specs.FileParts.{body_start, end_of_parts, entries_from, file_header, file_length, record_bytes, segment_part, table_bytes, version_number};
ghost use Rattle.elf_writer.specs.RewrittenFile.{IsShort, IsWritable};
ghost use Rattle.elf_writer.specs.Streams.{Gives};

use crate::buffer::Staging;
use crate::fields::Fields;
use crate::header::{FileHeader, ProgramHeader, RECORD_BYTES, record_start};
use crate::part::{Part, part_at, shadow_parts};
use crate::stream::{SinkFault, give};
use elf_image::{Image, Segment};
use spec_base::{Layout, Version};
use world_io::Sink;

/// What the record begins with.
const RECORD_MAGIC: [u8; 8] = *b"SPECHINT";

/// The number of a version in the record.
fn version_number(version: Version) -> u64
    ensures { result ≡ version_number version }
{
    match version {
        Version::One => 1,
        Version::Two => 2,
    }
}

/// The bytes of the record.
fn record_fields(layout: &Layout) -> Fields
    ensures { result ≡ record_bytes layout.now }
{
    Fields::new()
        .bytes(&RECORD_MAGIC)
        .xword(version_number(layout.version))
        .xword(layout.text_start)
        .xword(layout.text_end)
        .xword(u64::from(layout.regions))
}

/// Where the parts begin: behind the record.
pub(crate) fn body_start(image: &Image) -> u64
    requires { length image.now.segments ≤ 64 }
    ensures value { result ≡ body_start image.now }
    ensures near { result ≤ 4136 }
{
    record_start(image) + RECORD_BYTES
}

/// The length of the rewritten file of an image.
pub fn length_of(image: &Image, layout: &Layout) -> u64
    requires { IsWritable image.now layout.now }
    ensures { result ≡ file_length image.now layout.now }
{
    let shadow = shadow_parts(layout);
    end_of_parts(&image.segments.items, &shadow, body_start(image))
}

/// Where the file goes on behind the parts.
fn end_of_parts(segments: &[Segment], shadow: &[Part; 7], start: u64) -> u64
    requires few { length segments.now ≤ 64 }
    requires seven { length shadow.now ≡ 7 }
    requires near { start ≤ 4136 }
    requires short { All IsShort (map segment_part segments.now ++ shadow.now) }
    ensures { result ≡ end_of_parts start (map segment_part segments.now ++ shadow.now) }
{
    let mut cursor = start;
    for index in 0..segments.len() + 7 {
        cursor = part_at(segments, shadow, index).end(cursor);
    }
    cursor
}

/// Gives the entries of the parts, of which the first stands behind a cursor.
fn give_entries<S: Staging, O: Sink>(
    staging: &mut S,
    sink: &mut O,
    segments: &[Segment],
    shadow: &[Part; 7],
    start: u64,
) -> Result<(), SinkFault>
    requires few { length segments.now ≤ 64 }
    requires seven { length shadow.now ≡ 7 }
    requires near { start ≤ 4136 }
    requires short { All IsShort (map segment_part segments.now ++ shadow.now) }
    ensures gives { Gives (S.size staging.old) (S.held staging.old) (O.state sink.old) (entries_from start (map segment_part segments.now ++ shadow.now)) (is_ok result) (S.held staging.new) (O.state sink.new) }
    ensures size { S.size staging.new ≡ S.size staging.old }
{
    let mut cursor = start;
    for index in 0..segments.len() + 7 {
        let part = part_at(segments, shadow, index);
        let entry = ProgramHeader::of_part(&part, cursor);
        give(staging, sink, entry.fields().as_slice())?;
        cursor = part.end(cursor);
    }
    Ok(())
}

/// Gives the program header table.
fn give_table<S: Staging, O: Sink>(
    staging: &mut S,
    sink: &mut O,
    image: &Image,
    layout: &Layout,
) -> Result<(), SinkFault>
    requires { IsWritable image.now layout.now }
    ensures gives { Gives (S.size staging.old) (S.held staging.old) (O.state sink.old) (table_bytes image.now layout.now) (is_ok result) (S.held staging.new) (O.state sink.new) }
    ensures size { S.size staging.new ≡ S.size staging.old }
{
    let entry = ProgramHeader::of_record(image);
    give(staging, sink, entry.fields().as_slice())?;
    let shadow = shadow_parts(layout);
    give_entries(
        staging,
        sink,
        &image.segments.items,
        &shadow,
        body_start(image),
    )
}

/// Gives header, table and record.
pub(crate) fn give_front<S: Staging, O: Sink>(
    staging: &mut S,
    sink: &mut O,
    image: &Image,
    layout: &Layout,
) -> Result<(), SinkFault>
    requires { IsWritable image.now layout.now }
    ensures gives { Gives (S.size staging.old) (S.held staging.old) (O.state sink.old) (header_bytes (file_header image.now) ++ table_bytes image.now layout.now ++ record_bytes layout.now) (is_ok result) (S.held staging.new) (O.state sink.new) }
    ensures size { S.size staging.new ≡ S.size staging.old }
{
    let header = FileHeader::of(image);
    give(staging, sink, header.fields().as_slice())?;
    give_table(staging, sink, image, layout)?;
    give(staging, sink, record_fields(layout).as_slice())
}
