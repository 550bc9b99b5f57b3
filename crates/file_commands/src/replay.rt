//! The command `replay`.

ghost use Rattle.world_io.specs.Outside.{SinkState};
ghost use Rattle.command_words.specs.Limits.{IsWithinLimits};
ghost use Rattle.file_commands.specs.Traces.{ReplayTo};

use crate::lines::replay_line;
use command_status::{Status, read_file};
use command_words::Request;
use std::alloc::Global;
use trace_replay::{ReplayFault, replay_trace};
use world_io::{Sink, Store, put_all};

/// Reads a trace, replays it, and puts its totals on standard output.
pub fn replay<D: Store, O: Sink>(
    alloc: Global,
    request: &Request,
    store: &mut D,
    out: &mut O,
) -> Status
    requires { IsWithinLimits request.now }
    ensures { (err : SinkState) → ReplayTo request.now result
        (record { store = D.state store.old; out = O.state out.old; err = err })
        (record { store = D.state store.new; out = O.state out.new; err = err }) }
{
    let bytes = match read_file(alloc, request, store) {
        Ok(bytes) => bytes,
        Err(status) => return status,
    };
    let options = &request.options;
    let totals = match replay_trace(alloc, &bytes, options.blocks, options.depth, options.every) {
        Ok(totals) => totals,
        Err(ReplayFault::BadLine(number)) => return Status::BadLine(number),
        Err(ReplayFault::NoMemory) => return Status::NoMemory,
    };
    let Ok(line) = replay_line(alloc, &totals) else {
        return Status::NoMemory;
    };
    if put_all(out, &line) {
        Status::Done
    } else {
        Status::SinkFault
    }
}
