//! The opening of the file that `run` and `trace` execute.

ghost use Rattle.std.specs.Prelude.{◌≡◌, ◌≤◌, All, Err, map, string_bytes};
ghost use Rattle.elf_image.specs.Profile.{profile};
ghost use Rattle.run_laws.specs.OwnLaws.{AllBytes};
ghost use Rattle.command_words.specs.Limits.{IsWithinLimits};
ghost use Rattle.run_commands.specs.Opens.{HoldsRewritten, OpensFile, OpensTo};

use command_status::Status;
use command_words::Request;
use elf_image::{ReadFault, Refusal};
use elf_writer::{length, write};
use recovery_laws::rewritten_is_recovered;
use rewriter::rewrite_as;
use run_loader::OpenFault;
use runner::Runner;
use spec_base::Version;
use std::alloc::Global;
use world_io::BufSink;

/// The rewritten file of an accepted file, in a buffer of its length.
pub(crate) fn rewritten_file(
    alloc: Global,
    bytes: &[u8],
    regions: u32,
    version: Version,
) -> Result<BufSink, ReadFault>
    requires some { 1 ≤ regions }
    requires few { regions ≤ 65_536 }
    ensures { HoldsRewritten bytes.now regions version result }
{
    let parts = rewrite_as(alloc, bytes, regions, version)?;
    let Ok(mut sink) = BufSink::new(alloc, length(&parts) as usize) else {
        return Err(ReadFault::NoMemory);
    };
    let _ = write(bytes, &parts, &mut sink);
    Ok(sink)
}

/// The types of a file and of arguments say that these are bytes.
pub fn are_bytes(_file: &[u8], _words: &[String])
    ensures file { AllBytes _file.now }
    ensures words { All AllBytes (map string_bytes _words.now) }
{}

/// Opens a rewritten file, of which no more is told than that it is damaged.
fn open(alloc: Global, file: &[u8], request: &Request) -> Result<Runner, Status>
    requires { IsWithinLimits request.now }
    ensures { OpensFile request.now file.now result }
{
    match Runner::open(alloc, file, request.arguments.as_slice()) {
        Ok(runner) => Ok(runner),
        Err(OpenFault::Damaged(_)) => Err(Status::Refused(Refusal::Already)),
        Err(OpenFault::NoMemory) => Err(Status::NoMemory),
    }
}

/// Opens a file that the profile refuses for this reason, if it is a rewritten one.
fn open_refused(
    alloc: Global,
    bytes: &[u8],
    why: Refusal,
    request: &Request,
) -> Result<Runner, Status>
    requires request { IsWithinLimits request.now }
    requires refused { profile bytes.now request.now.options.layout ≡ Err why }
    ensures { OpensTo request.now bytes.now result }
{
    if why != Refusal::Already {
        return Err(Status::Refused(why));
    }
    open(alloc, bytes, request)
}

/// Opens what a request executes: the rewritten file of an accepted file, and a rewritten file as it is.
pub fn open_image(alloc: Global, bytes: &[u8], request: &Request) -> Result<Runner, Status>
    requires { IsWithinLimits request.now }
    ensures { OpensTo request.now bytes.now result }
{
    rewritten_is_recovered();
    let options = &request.options;
    match &rewritten_file(alloc, bytes, options.regions, options.layout) {
        Ok(sink) => open(alloc, sink.bytes(), request),
        Err(ReadFault::Refused(why)) => open_refused(alloc, bytes, *why, request),
        Err(ReadFault::NoMemory) => Err(Status::NoMemory),
    }
}
