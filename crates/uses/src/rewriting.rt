//! Rewriting a program.

ghost use Rattle.std.specs.Prelude.{◌≡◌, ◌≢◌, ◌≤◌, ◌++◌, length, true, Ok, Err, IfSome, Some};
ghost use Rattle.world_io.specs.Puts.{Fits};
ghost use Rattle.elf_image.specs.declared.image.Image.{Image};
ghost use Rattle.elf_image.specs.declared.refusal.Refusal.{Refusal as Reason};
ghost use Rattle.elf_image.specs.Profile.{profile};
ghost use Rattle.rewriter.specs.Layouts.{rewritten};

use rewriter::{Rewritten, rewrite_to};
use spec_base::Version;
use std::alloc::Global;
use world_io::Sink;

/// Bytes that the profile refuses are answered by that refusal, and nothing is put.
pub fn rewrite_refused<O: Sink>(
    alloc: Global,
    bytes: &[u8],
    regions: u32,
    version: Version,
    sink: &mut O,
) -> Rewritten
    requires some { 1 ≤ regions }
    requires few { regions ≤ 65_536 }
    ensures told { (why : Reason) → profile bytes.now version ≡ Err why → result ≡ Rewritten.Refused why }
    ensures silent { (why : Reason) → profile bytes.now version ≡ Err why → O.state sink.new ≡ O.state sink.old }
{
    rewrite_to(alloc, bytes, regions, version, sink)
}

/// What goes out of accepted bytes is their rewritten file as it is defined, behind what the sink had.
pub fn rewrite_whole<O: Sink>(
    alloc: Global,
    bytes: &[u8],
    regions: u32,
    version: Version,
    sink: &mut O,
) -> bool
    requires some { 1 ≤ regions }
    requires few { regions ≤ 65_536 }
    ensures { (image : Image) → profile bytes.now version ≡ Ok image → result ≡ true
        → IfSome (O.state sink.old).bytes (λ before. (O.state sink.new).bytes ≡ Some (before ++ rewritten bytes.now image regions version)) }
{
    match rewrite_to(alloc, bytes, regions, version, sink) {
        Rewritten::Done(_) => true,
        Rewritten::Refused(_) => false,
        Rewritten::SinkFault => false,
        Rewritten::NoMemory => false,
    }
}

/// Where the sink has room for the rewritten file, its put doesn't fail.
pub fn rewrite_within<O: Sink>(
    alloc: Global,
    bytes: &[u8],
    regions: u32,
    version: Version,
    sink: &mut O,
) -> Rewritten
    requires some { 1 ≤ regions }
    requires few { regions ≤ 65_536 }
    ensures { (image : Image) → profile bytes.now version ≡ Ok image
        → Fits (O.state sink.old).room (length (rewritten bytes.now image regions version)) → result ≢ Rewritten.SinkFault }
{
    rewrite_to(alloc, bytes, regions, version, sink)
}
