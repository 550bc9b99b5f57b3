//! The file descriptors of a program.

ghost use Rattle.std.specs.Prelude.{◌≡◌, ◌<◌, ◌^◌, pos, IfSome};
ghost use Rattle.program_model.specs.Descriptors.{EBADF};

use file_calls::{CallPlan, Files};
use rv_model::Bytes;
use spec_base::{Name, ReadSpot};

/// The number of the call that closes a descriptor.
const CLOSE: u64 = 57;

/// The number of the call that reads.
const READ: u64 = 63;

/// What is opened as this descriptor is read from its start.
pub fn read_opened<B: Bytes>(
    files: &Files,
    name: Name,
    size: u64,
    descriptor: u64,
    into: [u64; 2],
    mem: &B,
) -> ((Files, i64), Option<ReadSpot>)
    requires { size < 2 ^ 56 }
    ensures name { result.0.1 ≡ pos descriptor → IfSome result.1 (λ spot. spot.name ≡ name) }
    ensures start { result.0.1 ≡ pos descriptor → IfSome result.1 (λ spot. spot.offset ≡ 0) }
{
    let opened = files.opened(name, size);
    match opened.0.plan(READ, [descriptor, into[0], into[1]], mem) {
        CallPlan::Read(spot, _) => (opened, Some(spot)),
        _ => (opened, None),
    }
}

/// A read of no bytes changes no descriptor.
pub fn read_nothing(files: &Files, descriptor: u64) -> Files
    ensures { result ≡ files.now }
{
    files.after_read(descriptor, 0)
}

/// A descriptor that was closed can't be read, whether it stood for a file or not.
pub fn read_closed<B: Bytes>(files: &Files, descriptor: u64, into: [u64; 2], mem: &B) -> i64
    ensures { result ≡ EBADF }
{
    match files.plan(CLOSE, [descriptor, 0, 0], mem) {
        CallPlan::Set(closed, _) => match closed.plan(READ, [descriptor, into[0], into[1]], mem) {
            CallPlan::Set(_, answer) => answer,
            CallPlan::Read(_, _) => 0,
            _ => 0,
        },
        _ => 0,
    }
}
