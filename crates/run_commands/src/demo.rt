//! The command `demo`.

ghost use Rattle.std.specs.Prelude.{◌≡◌, ◌∷◌, [], codes, IfOk, None, Ok, Some};
ghost use Rattle.world_io.specs.Outside.{SinkState, StoreState};
ghost use Rattle.command_words.specs.Limits.{IsWithinLimits};
ghost use Rattle.run_commands.specs.Demo.{DemoTo, IsDemoLine, demo_files, has_ended};
ghost use Rattle.run_commands.specs.Opens.{StandsBefore};
ghost use Rattle.run_commands.specs.Run.{asked_file};
ghost use Rattle.sample_images.specs.Demos.{demo_image};

use crate::lines::demo_line;
use crate::opening::rewritten_file;
use command_status::Status;
use command_words::Request;
use plain_runner::Ending;
use program_driver::{counts, drive};
use runner::Runner;
use sample_images::{DEMO_RECORDS, data_file, demo_image};
use spec_base::{Name, NoMemory};
use std::alloc::Global;
use world_io::{BLOCK, BufSink, CleanStore, CountSink, Sink, Store, put_all};

/// For so many bytes that the program puts on standard output there is room.
const ROOM: usize = 4096;

/// A store with the file that the program reads.
fn demo_store(alloc: Global) -> Result<CleanStore, NoMemory>
    ensures { IfOk result (λ store. ⟦<CleanStore as Store>⟧.state store ≡ record { files = Some demo_files; numbers = None; faults = 0 }) }
{
    let mut store = CleanStore::new(alloc);
    let bytes = data_file(alloc, DEMO_RECORDS as usize * BLOCK)?;
    let Some(name) = Name::new(b"data") else {
        unreachable!()
    };
    store.add(name, &bytes)?;
    Ok(store)
}

/// Opens a rewritten file under the name `demo`.
fn open(alloc: Global, file: &[u8]) -> Result<Runner, NoMemory>
    ensures { IfOk result (λ runner. StandsBefore file.now (codes "demo" ∷ []) runner) }
{
    let name = String::from_str(alloc, "demo")?;
    match Runner::open(alloc, file, &[name]) {
        Ok(runner) => Ok(runner),
        // What was rewritten just now isn't damaged.
        Err(_) => Err(NoMemory),
    }
}

/// Whether a run came to an end by itself, or to the end of its turns.
fn has_ended(ending: Ending) -> bool
    ensures { result ≡ has_ended ending }
{
    match ending {
        Ending::Exited(_) | Ending::Trapped(_, _) | Ending::TurnsOver(_) => true,
        Ending::StoreFault | Ending::SinkFault | Ending::NoMemory => false,
    }
}

/// The rewritten file of the program.
fn rewritten_demo(alloc: Global, request: &Request) -> Result<BufSink, NoMemory>
    requires { IsWithinLimits request.now }
    ensures { IfOk result (λ file. asked_file request.now (demo_image request.now.number) ≡ Ok file.bytes) }
{
    let image = demo_image(alloc, request.number as u32)?;
    let options = &request.options;
    match rewritten_file(alloc, &image, options.regions, options.layout) {
        Ok(file) => Ok(file),
        // The program is accepted.
        Err(_) => Err(NoMemory),
    }
}

/// Runs an opened file of the program over its file, and answers the line that tells of it.
fn told_run(
    alloc: Global,
    request: &Request,
    file: &[u8],
    runner: &mut Runner,
) -> Result<Vec<u8>, NoMemory>
    requires limits { IsWithinLimits request.now }
    requires opens { asked_file request.now (demo_image request.now.number) ≡ Ok file.now }
    requires stands { StandsBefore file.now (codes "demo" ∷ []) runner.old }
    ensures { IfOk result (λ line. IsDemoLine request.now line.items) }
{
    let mut out = BufSink::new(alloc, ROOM)?;
    let mut store = demo_store(alloc)?;
    let mut err = CountSink::new();
    let (pattern, turns) = (&request.options.pattern, request.options.turns);
    let ending = drive(runner, pattern, turns, &mut store, &mut out, &mut err);
    if !has_ended(ending) {
        return Err(NoMemory);
    }
    let (rewritten, written) = (file.len(), out.bytes().len());
    let counts = counts(runner);
    let line = demo_line(
        alloc,
        request.number,
        rewritten as u64,
        written as u64,
        &counts,
    )?;
    Ok(line)
}

/// Rewrites the program, runs it over its file, and answers the line that tells of it.
fn demonstrate(alloc: Global, request: &Request) -> Result<Vec<u8>, NoMemory>
    requires { IsWithinLimits request.now }
    ensures { IfOk result (λ line. IsDemoLine request.now line.items) }
{
    let file = rewritten_demo(alloc, request)?;
    let mut runner = open(alloc, file.bytes())?;
    told_run(alloc, request, file.bytes(), &mut runner)
}

/// Runs a program of its own with a shadow, and puts on standard output how that went. It asks nothing
/// of the store.
pub fn demo<O: Sink>(alloc: Global, request: &Request, out: &mut O) -> Status
    requires { IsWithinLimits request.now }
    ensures { (store : StoreState) (err : SinkState) → DemoTo request.now result
        (record { store = store; out = O.state out.old; err = err })
        (record { store = store; out = O.state out.new; err = err }) }
{
    let Ok(line) = demonstrate(alloc, request) else {
        return Status::NoMemory;
    };
    if put_all(out, &line) {
        Status::Done
    } else {
        Status::SinkFault
    }
}
