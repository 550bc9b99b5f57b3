//! The command `run`.

ghost use Rattle.command_words.specs.Limits.{IsWithinLimits};
ghost use Rattle.run_commands.specs.Run.{RunTo};

use crate::opening::{are_bytes, open_image};
use command_status::{Status, read_file, status_of};
use command_words::Request;
use program_driver::run as drive;
use std::alloc::Global;
use world_io::{Sink, Store};

/// Reads a file, opens it as a rewritten program, and makes the moves of the pattern.
pub fn run<D: Store, O: Sink, E: Sink>(
    alloc: Global,
    request: &Request,
    store: &mut D,
    out: &mut O,
    err: &mut E,
) -> Status
    requires { IsWithinLimits request.now }
    ensures { RunTo request.now result
        (record { store = D.state store.old; out = O.state out.old; err = E.state err.old })
        (record { store = D.state store.new; out = O.state out.new; err = E.state err.new }) }
{
    let bytes = match read_file(alloc, request, store) {
        Ok(bytes) => bytes,
        Err(status) => return status,
    };
    let mut runner = match open_image(alloc, &bytes, request) {
        Ok(runner) => runner,
        Err(status) => return status,
    };
    are_bytes(&bytes, request.arguments.as_slice());
    let options = &request.options;
    let ending = drive(
        alloc,
        &mut runner,
        &options.pattern,
        options.turns,
        options.report,
        store,
        out,
        err,
    );
    status_of(ending)
}
