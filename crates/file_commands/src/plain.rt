//! The command `plain`.

ghost use Rattle.std.specs.Prelude.{◌≡◌, ℕ, ◌≤◌, ◌<◌, length, map, string_bytes};
ghost use Rattle.elf_image.specs.Image.{IsImage};
ghost use Rattle.plain_runner.specs.Runs.{Outside};
ghost use Rattle.command_words.specs.Limits.{IsWithinLimits};
ghost use Rattle.file_commands.specs.Plain.{PlainTo, RunsImage};

use command_status::{Status, read_file, status_of};
use command_words::Request;
use elf_image::{Image, read_as};
use plain_runner::run;
use program_loader::load;
use std::alloc::Global;
use world_io::{Sink, Store};

// Loads an accepted image and runs its program.
fn run_image<D: Store, O: Sink, E: Sink>(
    alloc: Global,
    bytes: &[u8],
    image: &Image,
    request: &Request,
    store: &mut D,
    out: &mut O,
    err: &mut E,
) -> Status
    requires image { IsImage bytes.now request.now.options.layout image.now }
    requires request { IsWithinLimits request.now }
    ensures { RunsImage request.now bytes.now image.now result
        (record { store = D.state store.old; out = O.state out.old; err = E.state err.old })
        (record { store = D.state store.new; out = O.state out.new; err = E.state err.new }) }
{
    let arguments = request.arguments.as_slice();
    let Ok(mut process) = load(alloc, bytes, image, request.options.layout, arguments) else {
        return Status::NoMemory;
    };
    let ending = run(
        alloc,
        &mut process.hart,
        &mut process.mem,
        &mut process.files,
        request.options.turns,
        store,
        out,
        err,
    );
    status_of(ending)
}

/// Reads an image and runs its program by itself.
pub fn plain<D: Store, O: Sink, E: Sink>(
    alloc: Global,
    request: &Request,
    store: &mut D,
    out: &mut O,
    err: &mut E,
) -> Status
    requires { IsWithinLimits request.now }
    ensures { PlainTo request.now result
        (record { store = D.state store.old; out = O.state out.old; err = E.state err.old })
        (record { store = D.state store.new; out = O.state out.new; err = E.state err.new }) }
{
    let bytes = match read_file(alloc, request, store) {
        Ok(bytes) => bytes,
        Err(status) => return status,
    };
    let image = match read_as(alloc, &bytes, request.options.layout) {
        Ok(image) => image,
        Err(elf_image::ReadFault::Refused(refusal)) => return Status::Refused(refusal),
        Err(elf_image::ReadFault::NoMemory) => return Status::NoMemory,
    };
    run_image(alloc, &bytes, &image, request, store, out, err)
}
