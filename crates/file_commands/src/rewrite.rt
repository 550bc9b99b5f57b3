//! The command `rewrite`.

ghost use Rattle.world_io.specs.Outside.{SinkState};
ghost use Rattle.command_words.specs.Limits.{IsWithinLimits};
ghost use Rattle.file_commands.specs.Rewrite.{RewriteTo, RewrittenStatus};

use command_status::{Status, read_file};
use command_words::Request;
use rewriter::{Rewritten, rewrite_to};
use std::alloc::Global;
use world_io::{Sink, Store};

fn status_of(answer: Rewritten) -> Status
    ensures { RewrittenStatus answer result }
{
    match answer {
        Rewritten::Done(_) => Status::Done,
        Rewritten::Refused(refusal) => Status::Refused(refusal),
        Rewritten::SinkFault => Status::SinkFault,
        Rewritten::NoMemory => Status::NoMemory,
    }
}

/// Reads an image and puts its rewritten file on standard output.
pub fn rewrite<D: Store, O: Sink>(
    alloc: Global,
    request: &Request,
    store: &mut D,
    out: &mut O,
) -> Status
    requires { IsWithinLimits request.now }
    ensures { (err : SinkState) → RewriteTo request.now result
        (record { store = D.state store.old; out = O.state out.old; err = err })
        (record { store = D.state store.new; out = O.state out.new; err = err }) }
{
    let bytes = match read_file(alloc, request, store) {
        Ok(bytes) => bytes,
        Err(status) => return status,
    };
    let options = &request.options;
    status_of(rewrite_to(alloc, &bytes, options.regions, options.layout, out))
}
