//! The command `trace`.

ghost use Rattle.world_io.specs.Outside.{SinkState};
ghost use Rattle.command_words.specs.Limits.{IsWithinLimits};
ghost use Rattle.run_commands.specs.Run.{TraceTo};

use crate::opening::{are_bytes, open_image};
use command_status::{Status, read_file, status_of};
use command_words::Request;
use program_driver::trace as drive;
use std::alloc::Global;
use world_io::{Sink, Store};

/// Reads a file, opens it as a rewritten program, and makes the moves of the pattern, with the lines of
/// what they tell on standard output, and of first uses where they are asked for.
pub fn trace<D: Store, O: Sink>(
    alloc: Global,
    request: &Request,
    store: &mut D,
    out: &mut O,
) -> Status
    requires { IsWithinLimits request.now }
    ensures { (err : SinkState) → TraceTo request.now result
        (record { store = D.state store.old; out = O.state out.old; err = err })
        (record { store = D.state store.new; out = O.state out.new; err = err }) }
{
    let bytes = match read_file(alloc, request, store) {
        Ok(bytes) => bytes,
        Err(status) => return status,
    };
    let mut runner = match open_image(alloc, &bytes, request) {
        Ok(runner) => runner,
        Err(status) => return status,
    };
    are_bytes(&bytes, request.arguments.as_slice());
    let options = &request.options;
    let ending = drive(
        alloc,
        &mut runner,
        &options.pattern,
        options.turns,
        options.uses,
        store,
        out,
    );
    status_of(ending)
}
