//! A rewritten program over a store and two sinks in memory, move by move.

use rewriter::{Rewritten, rewrite_to};
use runner::Runner;
use runner_parts::Turn;
use sample_images::{data_file, demo_words, two_segments};
use spec_base::{BlockSpot, Move, Name, Note, ReadSpot, Version};
use std::alloc::Global;
use std::test::Fail;
use world_io::{BufSink, MemSink, MemStore};

/// Opens `data`, whose name its data begin with, and keeps the descriptor in x9; x8 is where the data are.
pub(crate) const OPENS: [u32; 6] = [
    0x0020_0437, // lui x8, 0x200
    0x0004_0593, // addi x11, x8, 0
    0x0000_0613, // addi x12, x0, 0
    0x0380_0893, // addi x17, x0, 56
    0x0000_0073, // ecall
    0x0005_0493, // addi x9, x10, 0
];

/// Exits with 0.
pub(crate) const EXITS: [u32; 3] = [
    0x0000_0513, // addi x10, x0, 0
    0x05D0_0893, // addi x17, x0, 93
    0x0000_0073, // ecall
];

// A store, and the sinks of both outputs.
#[derive(Drop)]
struct Outside {
    store: MemStore,
    out: MemSink,
    err: MemSink,
}

/// A runner with what is outside of it. Functions own it in a box, so that the drops of its parts are proved once.
#[derive(Drop)]
pub(crate) struct Machine {
    pub(crate) runner: Runner,
    outside: Outside,
}

/// These words behind one another.
pub(crate) fn joined(alloc: Global, parts: &[&[u32]]) -> Result<Vec<u32>, Fail> {
    let mut words = Vec::new(alloc);
    for part in parts {
        words.extend_from_slice(part)?;
    }
    Ok(words)
}

/// The program of the command `demo`, with so many instructions that only count.
pub(crate) fn demo(alloc: Global, fillers: u32, records: u16) -> Result<Vec<u32>, Fail> {
    if records > 2047 {
        return Err("size".into());
    }
    Ok(demo_words(alloc, fillers, records)?)
}

// The rewritten file of a program's words.
fn rewritten(alloc: Global, words: &[u32]) -> Result<BufSink, Fail> {
    if words.len() > 4096 {
        return Err("size".into());
    }
    let file = two_segments(alloc, words)?;
    let mut sink = BufSink::new(alloc, 1_048_576)?;
    match rewrite_to(alloc, &file, 16, Version::One, &mut sink) {
        Rewritten::Done(_) => Ok(sink),
        _ => Err("rewritten".into()),
    }
}

fn opened(alloc: Global, file: &[u8]) -> Result<Runner, Fail> {
    match Runner::open(alloc, file, &[]) {
        Ok(runner) => Ok(runner),
        Err(_) => Err("opened".into()),
    }
}

fn sink(alloc: Global) -> Result<MemSink, Fail> {
    Ok(MemSink::new(alloc, 4096, Vec::new(alloc), Vec::new(alloc))?)
}

fn quiet_outside(alloc: Global, fails: &[u64]) -> Result<Outside, Fail> {
    let store = MemStore::new(alloc, fails.to_vec(alloc)?);
    let out = sink(alloc)?;
    let err = sink(alloc)?;
    Ok(Outside { store, out, err })
}

/// A runner of a program. The calls of its store in `fails` fail.
pub(crate) fn machine_of(
    alloc: Global,
    words: &[u32],
    fails: &[u64],
) -> Result<Box<Machine>, Fail> {
    let outside = quiet_outside(alloc, fails)?;
    let file = rewritten(alloc, words)?;
    let runner = opened(alloc, file.bytes())?;
    Ok(Box::new(alloc, Machine { runner, outside })?)
}

// Gives its store a file.
fn add(machine: &mut Machine, file: &[u8], bytes: &[u8]) -> Result<(), Fail> {
    if bytes.len() > 16_777_216 {
        return Err("size".into());
    }
    Ok(machine.outside.store.add(name(file)?, bytes)?)
}

/// Gives its store a file of so many equal bytes.
pub(crate) fn add_equal(
    machine: &mut Machine,
    alloc: Global,
    file: &[u8],
    byte: u8,
    count: usize,
) -> Result<(), Fail> {
    let bytes = vec![in alloc; byte; count]?;
    add(machine, file, &bytes)
}

fn blocks_of_data(alloc: Global, blocks: usize) -> Result<Vec<u8>, Fail> {
    if blocks > 4096 {
        return Err("size".into());
    }
    Ok(data_file(alloc, blocks * 4096)?)
}

/// A runner of a program, with so many blocks of the file `data`.
pub(crate) fn with_data(alloc: Global, words: &[u32], blocks: usize) -> Result<Box<Machine>, Fail> {
    let bytes = blocks_of_data(alloc, blocks)?;
    let mut machine = machine_of(alloc, words, &[])?;
    add(&mut machine, b"data", &bytes)?;
    Ok(machine)
}

/// A runner of the program of the command `demo`, with its file.
pub(crate) fn demo_machine(
    alloc: Global,
    fillers: u32,
    records: u16,
) -> Result<Box<Machine>, Fail> {
    let words = demo(alloc, fillers, records)?;
    with_data(alloc, &words, records as usize)
}

/// One move, with its pages.
pub(crate) fn go(machine: &mut Machine, step: Move) -> Turn {
    if machine.runner.moves() > 1_000_000_000 || machine.runner.reserve(17).is_err() {
        return Turn::NoMemory;
    }
    let outside = &mut machine.outside;
    machine.runner.go(step, &mut outside.store, &mut outside.out, &mut outside.err)
}

/// Makes so many equal moves.
pub(crate) fn go_many(machine: &mut Machine, step: Move, count: u64) {
    for _ in 0..count {
        go(machine, step);
    }
}

/// Makes equal moves up to one that tells something, and answers its turn. `Idle` where 20,000 tell nothing.
pub(crate) fn until_told(machine: &mut Machine, step: Move) -> Turn {
    for _ in 0..20_000 {
        let turn = go(machine, step);
        if !machine.runner.notes().is_empty() {
            return turn;
        }
    }
    Turn::Idle
}

/// Makes equal moves up to the third that tells something: behind the open of `data` the program restarts its shadow
/// before its first read, and waits there.
pub(crate) fn to_the_first_stall(machine: &mut Machine) {
    for _ in 0..3 {
        until_told(machine, Move::O);
    }
}

fn is_over(turn: Turn) -> bool {
    turn != Turn::Went && turn != Turn::Idle
}

/// Runs a program to its end. Before each move of the own hart a fetch may finish, and so many of the shadow are made.
pub(crate) fn to_the_end(machine: &mut Machine, shadows: u64) -> Turn {
    for _ in 0..100_000 {
        let fetched = go(machine, Move::D);
        if is_over(fetched) {
            return fetched;
        }
        go_many(machine, Move::S, shadows);
        let turn = go(machine, Move::O);
        if is_over(turn) {
            return turn;
        }
    }
    Turn::Idle
}

/// What it counts: moves, own instructions, stalls, restarts, matched reads, hints, the most regions in use, own
/// instructions since the restart, and the shadow's.
pub(crate) fn counts(machine: &Machine) -> [u64; 9] {
    let runner = &machine.runner;
    [
        runner.moves(),
        runner.own_done(),
        runner.stalls(),
        runner.restarts(),
        runner.matched(),
        runner.hints(),
        runner.regions_most(),
        runner.own_since(),
        runner.shadow_done(),
    ]
}

/// Matched reads, and restarts.
pub(crate) fn matched(machine: &Machine) -> (u64, u64) {
    (machine.runner.matched(), machine.runner.restarts())
}

/// What standard output has taken.
pub(crate) fn put_out(machine: &Machine) -> &[u8] {
    machine.outside.out.bytes()
}

pub(crate) fn name(bytes: &[u8]) -> Result<Name, Fail> {
    match Name::new(bytes) {
        Some(name) => Ok(name),
        None => Err("name".into()),
    }
}

/// A read of `data`.
pub(crate) fn read(offset: u64, count: u64) -> Result<ReadSpot, Fail> {
    Ok(ReadSpot {
        name: name(b"data")?,
        offset,
        count,
    })
}

/// A block of `data`.
pub(crate) fn block(block: u64) -> Result<BlockSpot, Fail> {
    Ok(BlockSpot {
        name: name(b"data")?,
        block,
    })
}

/// Whether the last move told this alone.
pub(crate) fn told(machine: &Machine, note: Note) -> bool {
    machine.runner.notes() == [note].as_slice()
}

/// Whether the next move of this kind that tells anything tells this alone, and the run goes on.
pub(crate) fn tells(machine: &mut Machine, step: Move, note: Note) -> bool {
    until_told(machine, step) == Turn::Went && told(machine, note)
}
