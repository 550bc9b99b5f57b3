//! The file parts of the segments.

ghost use Rattle.std.specs.Prelude.{◌≡◌, ℕ, ◌+◌, ◌<◌, ◌≤◌, length, map, take, drop, All, IfOk};
ghost use Rattle.spec_base.specs.Layout.{image_limit};
ghost use Rattle.program_model.specs.Loading.{data_of, with_parts};
ghost use Rattle.rv_model.specs.Memory.{written, zeros};
ghost use Rattle.elf_image.specs.Image.{IsPlaced};
ghost use Rattle.hart_mem.specs.Held.{space_of};
ghost use Rattle.program_loader.specs.Programs.{part_of};

use elf_image::Segment;
use hart_mem::Mem;
use spec_base::NoMemory;

/// The file part of a segment, which may have no bytes and then stands anywhere.
fn file_part<'a>(bytes: &'a [u8], segment: &Segment) -> &'a [u8]
    requires { 0 < segment.now.length → segment.now.offset + segment.now.length ≤ length bytes.now }
    ensures { result.now ≡ take segment.now.length (drop segment.now.offset bytes.now) }
{
    if segment.length == 0 {
        return b"";
    }
    let start = segment.offset as usize;
    let end = start + segment.length as usize;
    &bytes[start..end]
}

/// Loads the file part of a segment.
fn load_segment(mem: &mut Mem, bytes: &[u8], segment: &Segment) -> Result<(), NoMemory>
    requires { IsPlaced (image_limit (space_of mem.old).layout.version) bytes.now segment.now }
    ensures { IfOk result (λ _. space_of mem.new ≡ record (space_of mem.old) { program = data_of (space_of mem.old).layout (written (space_of mem.old).program (part_of bytes.now segment.now).0 (part_of bytes.now segment.now).1) }) }
{
    mem.load_part(segment.address, file_part(bytes, segment))
}

/// Loads the file parts of the segments into a memory that is clean.
pub fn load_parts(mem: &mut Mem, bytes: &[u8], segments: &[Segment]) -> Result<(), NoMemory>
    requires placed { All (IsPlaced (image_limit (space_of mem.old).layout.version) bytes.now) segments.now }
    requires clean { (space_of mem.old).program ≡ zeros }
    ensures { IfOk result (λ _. space_of mem.new ≡ record (space_of mem.old) { program = data_of (space_of mem.old).layout (with_parts zeros (map (part_of bytes.now) segments.now)) }) }
{
    for segment in segments {
        load_segment(mem, bytes, segment)?;
    }
    Ok(())
}
