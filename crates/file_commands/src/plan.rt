//! The command `plan`.

ghost use Rattle.world_io.specs.Outside.{SinkState};
ghost use Rattle.command_words.specs.Limits.{IsWithinLimits};
ghost use Rattle.file_commands.specs.Traces.{PlanTo};

use crate::lines::plan_line;
use command_status::{Status, read_file};
use command_words::Request;
use fetch_plan::{PlanFault, plan_trace};
use std::alloc::Global;
use world_io::{Sink, Store, put_all};

/// Reads a trace, plans its fetches, and puts on standard output how few do.
pub fn plan<D: Store, O: Sink>(
    alloc: Global,
    request: &Request,
    store: &mut D,
    out: &mut O,
) -> Status
    requires { IsWithinLimits request.now }
    ensures { (err : SinkState) → PlanTo request.now result
        (record { store = D.state store.old; out = O.state out.old; err = err })
        (record { store = D.state store.new; out = O.state out.new; err = err }) }
{
    let bytes = match read_file(alloc, request, store) {
        Ok(bytes) => bytes,
        Err(status) => return status,
    };
    let blocks = request.options.blocks;
    let totals = match plan_trace(alloc, &bytes, blocks) {
        Ok(totals) => totals,
        Err(PlanFault::BadLine(number)) => return Status::BadLine(number),
        Err(PlanFault::TooMany) => return Status::TooMany,
        Err(PlanFault::NoMemory) => return Status::NoMemory,
    };
    let Ok(line) = plan_line(alloc, &totals, blocks) else {
        return Status::NoMemory;
    };
    if put_all(out, &line) {
        Status::Done
    } else {
        Status::SinkFault
    }
}
