//! The image or trace that a command acts on.

ghost use Rattle.std.specs.Prelude.{◌≡◌, ◌≤◌, ◌<◌, ℕ, length, map, string_bytes, IfOk};
ghost use Rattle.command_words.specs.Limits.{IsWithinLimits};
ghost use Rattle.whole_file.specs.Reading.{mapped};
ghost use Rattle.command_status.specs.Common.{FileRead, image_name};

use crate::status::Status;
use command_words::Request;
use elf_image::Refusal;
use spec_base::Name;
use std::alloc::Global;
use whole_file::{ReadFault, read_whole};
use world_io::Store;

/// The word for the image or the trace.
pub fn image_word<'a>(request: &'a Request) -> &'a [u8]
    ensures { result.now ≡ image_name request.now }
{
    match request.arguments.as_slice() {
        [image, ..] => image.as_bytes(),
        [] => b"",
    }
}

/// Reads the file whole, or says which status the command ends with.
pub fn read_file<D: Store>(
    alloc: Global,
    request: &Request,
    store: &mut D,
) -> Result<Vec<u8>, Status>
    requires { IsWithinLimits request.now }
    ensures read { FileRead request.now (mapped (λ v. v.items) result) (D.state store.old) (D.state store.new) }
    ensures few { IfOk result (λ v. length v.items ≤ 67_108_864) }
{
    let Some(name) = Name::new(image_word(request)) else {
        unreachable!()
    };
    match read_whole(alloc, &name, store) {
        Ok(bytes) => Ok(bytes),
        Err(ReadFault::Absent) => Err(Status::Absent),
        Err(ReadFault::TooLong) => Err(Status::Refused(Refusal::TooLong)),
        Err(ReadFault::Failed) => Err(Status::StoreFault),
        Err(ReadFault::NoMemory) => Err(Status::NoMemory),
    }
}
