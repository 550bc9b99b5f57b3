//! The layout of a rewritten program.

ghost use Rattle.std.specs.Prelude.{◌≡◌, ◌-◌, ◌/◌};
ghost use Rattle.elf_writer.specs.FileParts.{text_count};
ghost use Rattle.rewriter.specs.Layouts.{layout_of};

use elf_image::Image;
use spec_base::{Layout, Version};

/// The layout of an image's text, for so many regions.
pub(crate) fn layout_of(image: &Image, regions: u32, version: Version) -> Layout
    ensures { result ≡ layout_of image.now regions version }
{
    Layout {
        text_start: image.text_start,
        text_end: image.text_end,
        regions,
        version,
    }
}

/// How many words the text has.
pub(crate) fn text_count(layout: &Layout) -> u64
    ensures { result ≡ text_count layout.now }
{
    (layout.text_end.saturating_sub(layout.text_start)) / 4
}
