//! The opening of a rewritten file.

ghost use Rattle.std.specs.Prelude.{◌≤◌, ◌+◌, length, map, string_bytes, IfOk, IsTrue};
ghost use Rattle.std.specs.List.{sum_by};
ghost use Rattle.spec_base.specs.Layout.{is_lawful};
ghost use Rattle.elf_image.specs.Image.{IsImage};
ghost use Rattle.elf_image.specs.Recovery.{IsRecovered, carried};
ghost use Rattle.elf_writer.specs.RewrittenFile.{IsCodeOf};
ghost use Rattle.elf_writer.specs.Writing.{listed};
ghost use Rattle.run_loader.specs.Loading.{Loads};
ghost use Rattle.run_loader.specs.Opening.{OpensRecovered, LawsHold, OpensAs};

use crate::parts::parts_again;
use elf_image::{Part, RecoverFault, Recovered};
use elf_writer::Parts;
use file_calls::Files;
use hart_mem::Mem;
use hart_step::Hart;
use program_loader::load_in;
use rewritten_reader::read_back;
use spec_base::{Layout, NoMemory, View};
use std::alloc::Global;

/// A rewritten program before the first move of its run.
#[derive(Drop)]
pub struct Opened {
    /// The memory, with the code and the bytes of all views.
    pub mem: Mem,
    /// The own hart, at the program's entry in the Program view.
    pub hart: Hart,
    /// The own descriptors and the break.
    pub files: Files,
    /// The layout.
    pub layout: Layout,
}

/// Why a file isn't opened.
#[derive(Clone, Copy, Debug, PartialEq, Eq)]
pub enum OpenFault {
    /// The file isn't a rewritten one; of its damaged parts this is the first.
    Damaged(Part),
    /// Memory was wanting. The file's record and its image are undamaged.
    NoMemory,
}

/// Loads the parts of a rewritten program, whose image stands in these bytes.
fn load_parts(
    alloc: Global,
    bytes: &[u8],
    parts: Parts,
    arguments: &[String],
) -> Result<Opened, NoMemory>
    requires image { IsImage bytes.now parts.layout.version parts.image }
    requires lawful { IsTrue (is_lawful parts.layout) }
    requires code { IsCodeOf parts.layout (listed parts) }
    requires few { length arguments.now ≤ 64 }
    requires short { sum_by (λ word. length word + 1) (map string_bytes arguments.now) ≤ 65_536 }
    ensures { IfOk result (λ opened. Loads bytes.now parts (map string_bytes arguments.now) opened) }
{
    let layout = parts.layout;
    let image = parts.image;
    let view = View::Program;
    let process = load_in(alloc, bytes, &image, layout, parts.text, view, arguments)?;
    let mut mem = process.mem;
    mem.set_code(parts.shadow, parts.helpers, parts.stub)?;
    Ok(Opened {
        mem,
        hart: process.hart,
        files: process.files,
        layout,
    })
}

/// Loads what a rewritten file carries.
fn load_again(
    alloc: Global,
    bytes: &[u8],
    recovered: Recovered,
    arguments: &[String],
) -> Result<Opened, NoMemory>
    requires recovered { IsRecovered bytes.now recovered }
    requires few { length arguments.now ≤ 64 }
    requires short { sum_by (λ word. length word + 1) (map string_bytes arguments.now) ≤ 65_536 }
    ensures { IfOk result (λ opened. OpensRecovered bytes.now recovered (map string_bytes arguments.now) opened) }
{
    let parts = parts_again(alloc, bytes, recovered)?;
    load_parts(alloc, bytes, parts, arguments)
}

/// Opens a rewritten file, which is any list of bytes, for a run with these arguments: 64 at most,
/// of 65,536 bytes at most with a zero byte behind each, and the first is by custom the program's
/// name. The file is compared with its own rewriting piece by piece, so no second file is held.
pub fn open(alloc: Global, file: &[u8], arguments: &[String]) -> Result<Opened, OpenFault>
    requires few { length arguments.now ≤ 64 }
    requires short { sum_by (λ word. length word + 1) (map string_bytes arguments.now) ≤ 65_536 }
    ensures answer { OpensAs file.now (map string_bytes arguments.now) result }
    ensures laws { IfOk result (λ _. LawsHold file.now (carried file.now) (map string_bytes arguments.now)) }
{
    let recovered = match read_back(alloc, file) {
        Ok(recovered) => recovered,
        Err(RecoverFault::Damaged(part)) => return Err(OpenFault::Damaged(part)),
        Err(RecoverFault::NoMemory) => return Err(OpenFault::NoMemory),
    };
    match load_again(alloc, file, recovered, arguments) {
        Ok(opened) => Ok(opened),
        Err(NoMemory) => Err(OpenFault::NoMemory),
    }
}
