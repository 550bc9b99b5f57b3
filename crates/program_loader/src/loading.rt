//! The loading of an image.

ghost use Rattle.std.specs.Prelude.{◌≡◌, ◌≤◌, ◌+◌, ◌-◌, ◌*◌, ◌/◌, length, vec_len, map, string_bytes, IfOk, IsTrue};
ghost use Rattle.std.specs.List.{sum_by};
ghost use Rattle.spec_base.specs.Layout.{is_lawful};
ghost use Rattle.program_model.specs.Loading.{stack_start};
ghost use Rattle.elf_image.specs.Image.{IsImage};
ghost use Rattle.hart_mem.specs.Held.{space_of, text_words};
ghost use Rattle.hart_step.specs.Core.{core_of};
ghost use Rattle.program_loader.specs.Programs.{plain_layout, executable_in, program_of, parts_space, start_space, IsLoaded};
ghost use Rattle.plain_runner.specs.Turns.{IsStart};

use crate::parts::load_parts;
use crate::start::{argument_bytes, stack_bytes};
use elf_image::{Image, text};
use file_calls::Files;
use hart_mem::Mem;
use hart_step::Hart;
use spec_base::{Layout, NoMemory, Reg, Version, View};
use std::alloc::Global;

/// A program at its first instruction.
#[derive(Drop)]
pub struct Process {
    /// Its hart.
    pub hart: Hart,
    /// Its memory.
    pub mem: Mem,
    /// Its descriptors and its break.
    pub files: Files,
}

/// The layout in which a program runs by itself.
fn plain_layout(image: &Image, version: Version) -> Layout
    ensures { result ≡ plain_layout version image.now }
{
    Layout {
        text_start: image.text_start,
        text_end: image.text_end,
        regions: 1,
        version,
    }
}

/// A memory of a layout, with a text of these words and the file parts.
fn memory_of(
    alloc: Global,
    bytes: &[u8],
    image: &Image,
    layout: Layout,
    words: Vec<u32>,
) -> Result<Mem, NoMemory>
    requires image { IsImage bytes.now layout.version image.now }
    requires lawful { IsTrue (is_lawful layout) }
    requires words { vec_len words ≡ text_words layout }
    ensures { IfOk result (λ mem. space_of mem ≡ parts_space (executable_in layout words.items bytes.now image.now)) }
{
    let mut mem = Mem::new(alloc, layout, words)?;
    load_parts(&mut mem, bytes, &image.segments.items)?;
    Ok(mem)
}

/// Where the stack begins, at a multiple of 16, below the arguments.
fn stack_start(arguments: u64, length: u64) -> u64
    requires { length ≤ arguments }
    ensures value { result ≡ (arguments - length) / 16 * 16 }
    ensures below { result + length ≤ arguments }
    ensures near { arguments ≤ result + length + 15 }
{
    (arguments - length) / 16 * 16
}

/// Writes the arguments and the stack, and answers where the stack begins.
fn write_start(
    alloc: Global,
    mem: &mut Mem,
    version: Version,
    arguments: &[String],
) -> Result<u64, NoMemory>
    requires lawful { IsTrue (is_lawful (space_of mem.old).layout) }
    requires version { (space_of mem.old).layout.version ≡ version }
    requires few { length arguments.now ≤ 64 }
    requires short { sum_by (λ word. length word + 1) (map string_bytes arguments.now) ≤ 65_536 }
    ensures { IfOk result (λ at. (at ≡ stack_start (space_of mem.old).layout (map string_bytes arguments.now)) × (space_of mem.new ≡ start_space (space_of mem.old) (map string_bytes arguments.now))) }
{
    let bytes = argument_bytes(alloc, arguments)?;
    let start = version.range_end() - bytes.len() as u64;
    let words = stack_bytes(alloc, start, arguments)?;
    let stack = stack_start(start, words.len() as u64);
    mem.fill(start, &bytes)?;
    mem.fill(stack, &words)?;
    Ok(stack)
}

/// Loads an image as a program of this layout, whose text has these words, with a hart in this
/// view. The arguments are as for [`load`].
pub fn load_in(
    alloc: Global,
    bytes: &[u8],
    image: &Image,
    layout: Layout,
    words: Vec<u32>,
    view: View,
    arguments: &[String],
) -> Result<Process, NoMemory>
    requires image { IsImage bytes.now layout.version image.now }
    requires lawful { IsTrue (is_lawful layout) }
    requires words { vec_len words ≡ text_words layout }
    requires few { length arguments.now ≤ 64 }
    requires short { sum_by (λ word. length word + 1) (map string_bytes arguments.now) ≤ 65_536 }
    ensures { IfOk result (λ process. IsLoaded (executable_in layout words.items bytes.now image.now) (map string_bytes arguments.now) view (core_of process.hart) (space_of process.mem) process.files) }
{
    let mut mem = memory_of(alloc, bytes, image, layout, words)?;
    let stack = write_start(alloc, &mut mem, layout.version, arguments)?;
    let mut hart = Hart::new(image.entry, view);
    hart.set_reg(Reg::from_low_bits(2), stack);
    let files = Files::new(image.break_start, layout.version.image_limit());
    Ok(Process { hart, mem, files })
}

/// Loads an accepted image with its arguments, of which the first is by custom its name, for a hart
/// in the Plain view. There are 64 at most, of 65,536 bytes at most with a zero byte behind each.
pub fn load(
    alloc: Global,
    bytes: &[u8],
    image: &Image,
    version: Version,
    arguments: &[String],
) -> Result<Process, NoMemory>
    requires image { IsImage bytes.now version image.now }
    requires few { length arguments.now ≤ 64 }
    requires short { sum_by (λ word. length word + 1) (map string_bytes arguments.now) ≤ 65_536 }
    ensures { IfOk result (λ process. IsStart (program_of version bytes.now image.now (map string_bytes arguments.now)) (core_of process.hart) (space_of process.mem) process.files) }
{
    let words = text(alloc, bytes, image)?;
    let layout = plain_layout(image, version);
    load_in(alloc, bytes, image, layout, words, View::Plain, arguments)
}
