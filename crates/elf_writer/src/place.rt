//! The part of the rewritten file that a byte belongs to.

ghost use Rattle.std.specs.Prelude.{◌≡◌, ◌+◌, ◌≤◌, length, map, All};
ghost use Rattle.elf_writer.specs.FileParts.{end_of_parts, segment_part};
ghost use Rattle.elf_writer.specs.PartPlaces.{loaded_end, part_at};
ghost use Rattle.elf_writer.specs.RewrittenFile.{IsWritable};

use crate::header::record_start;
use crate::part::Part;
use crate::table::body_start;
use elf_image::{Image, Part as FilePart, Segment};
use spec_base::Layout;

/// Where the file goes on behind the segments.
fn end_of_segments(segments: &[Segment], start: u64) -> u64
    requires few { length segments.now ≤ 64 }
    requires near { start ≤ 4136 }
    requires short { All (λ s. s.length ≤ 0x4000_0000) segments.now }
    ensures value { result ≡ end_of_parts start (map segment_part segments.now) }
    ensures near { result ≤ 0x1000_0000_0000 }
{
    let mut cursor = start;
    for segment in segments {
        cursor = Part::of_segment(segment).end(cursor);
    }
    cursor
}

/// The part that the byte at an offset of the rewritten file belongs to. Zero bytes before a part
/// belong to it.
pub fn part_at(image: &Image, layout: &Layout, offset: u64) -> FilePart
    requires { IsWritable image.now layout.now }
    ensures { result ≡ part_at image.now layout.now offset }
{
    let start = body_start(image);
    let loaded = end_of_segments(&image.segments.items, start);
    let shadow = Part::of_shadow(layout).end(loaded);
    let helpers = Part::of_helpers().end(shadow);
    if offset < record_start(image) {
        FilePart::Header
    } else if offset < start {
        FilePart::Record
    } else if offset < loaded {
        FilePart::Loaded
    } else if offset < shadow {
        FilePart::Shadow
    } else if offset < helpers {
        FilePart::Helpers
    } else {
        FilePart::Stub
    }
}
