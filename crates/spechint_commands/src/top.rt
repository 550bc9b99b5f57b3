//! The top call.

ghost use Rattle.std.specs.Prelude.{◌≡◌, ◌⊎◌, ℕ, map, string_bytes, IfSome, None};
ghost use Rattle.world_io.specs.Outside.{Rose};
ghost use Rattle.command_words.specs.CommandLine.{command_of};
ghost use Rattle.spechint_commands.specs.Defined.{IsSteady, IsDefined};
ghost use Rattle.command_words.specs.Limits.{IsWithinLimits};
ghost use Rattle.command_status.specs.Common.{image_name};
ghost use Rattle.spechint_commands.specs.Promised.{Promises};
ghost use Rattle.spechint_commands.specs.Top.{IsOutcome, CommandTo};

use command_status::{Status, image_word, tell};
use command_words::{Command, Request, read_words};
use file_commands::plain::plain;
use file_commands::plan::plan;
use file_commands::replay::replay;
use file_commands::rewrite::rewrite;
use file_runs::runs_are_as_plain;
use run_commands::demo::demo;
use run_commands::run::run;
use run_commands::trace::trace;
use run_promises::runs_keep;
use std::alloc::Global;
use world_io::{Sink, Store};

// Does what a command asks for.
fn command<D: Store, O: Sink, E: Sink>(
    alloc: Global,
    request: &Request,
    store: &mut D,
    out: &mut O,
    err: &mut E,
) -> Status
    requires { IsWithinLimits request.now }
    ensures { CommandTo request.now.command request.now result
        (record { store = D.state store.old; out = O.state out.old; err = E.state err.old })
        (record { store = D.state store.new; out = O.state out.new; err = E.state err.new }) }
{
    match request.command {
        Command::Plain => plain(alloc, request, store, out, err),
        Command::Rewrite => rewrite(alloc, request, store, out),
        Command::Replay => replay(alloc, request, store, out),
        Command::Plan => plan(alloc, request, store, out),
        Command::Run => run(alloc, request, store, out, err),
        Command::Trace => trace(alloc, request, store, out),
        Command::Demo => demo(alloc, request, out),
    }
}

// Does what the words say, with the whole outcome.
fn outcome<D: Store, O: Sink, E: Sink>(
    alloc: Global,
    words: &[String],
    store: &mut D,
    out: &mut O,
    err: &mut E,
) -> Status
    ensures outcome { IsOutcome (map string_bytes words.now) result
        (record { store = D.state store.old; out = O.state out.old; err = E.state err.old })
        (record { store = D.state store.new; out = O.state out.new; err = E.state err.new }) }
{
    let Ok(read) = read_words(alloc, words) else {
        tell(&Status::NoMemory, b"", err);
        return Status::NoMemory;
    };
    let Some(request) = read else {
        tell(&Status::Usage, b"", err);
        return Status::Usage;
    };
    let status = command(alloc, &request, store, out, err);
    tell(&status, image_word(&request), err);
    status
}

/// Does what the words of a command line say, over a store of files and two sinks: `plain` runs an
/// image by itself, `rewrite` puts its rewritten file, `run` runs that beside its shadow, `trace` puts what
/// its moves tell, `demo` runs a program of its own, `replay` runs a cache again from a trace, and `plan`
/// tells the fewest fetches for one.
pub fn spechint<D: Store, O: Sink, E: Sink>(
    alloc: Global,
    words: &[String],
    store: &mut D,
    out: &mut O,
    err: &mut E,
) -> Status
    // The whole outcome: the calls on the store in their order, the run, and the bytes on both sinks.
    ensures outcome { IsOutcome (map string_bytes words.now) result
        (record { store = D.state store.old; out = O.state out.old; err = E.state err.old })
        (record { store = D.state store.new; out = O.state out.new; err = E.state err.new }) }

    // Each refusal and fault has its cause.
    ensures usage { result ≡ Status.Usage → command_of (map string_bytes words.now) ≡ None }
    ensures store_fault { result ≡ Status.StoreFault → Rose (D.state store.old).faults (D.state store.new).faults }
    ensures sink_fault { result ≡ Status.SinkFault
        → Rose (O.state out.old).faults (O.state out.new).faults ⊎ Rose (E.state err.old).faults (E.state err.new).faults }
    ensures absent { result ≡ Status.Absent
        → IfSome (command_of (map string_bytes words.now)) (λ r. IfSome (D.state store.old).files (λ files. files (image_name r) ≡ None)) }

    // Where `run` or `trace` ran, the program does as by itself, its hints are its next reads, and it gets on.
    ensures promised { Promises (map string_bytes words.now) result
        (record { store = D.state store.old; out = O.state out.old; err = E.state err.old })
        (record { store = D.state store.new; out = O.state out.new; err = E.state err.new }) }

    // Where the store tells its files and no count rises, status and bytes are those of the words, the
    // file and its program's run.
    ensures defined { IfSome (D.state store.old).files (λ files.
        IsSteady (record { store = D.state store.old; out = O.state out.old; err = E.state err.old })
        (record { store = D.state store.new; out = O.state out.new; err = E.state err.new })
        → IsDefined (map string_bytes words.now) files result
        (record { store = D.state store.old; out = O.state out.old; err = E.state err.old })
        (record { store = D.state store.new; out = O.state out.new; err = E.state err.new })) }
{
    runs_are_as_plain();
    runs_keep();
    outcome(alloc, words, store, out, err)
}
