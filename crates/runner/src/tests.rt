//! A runner of a short text, move by move.

use crate::Runner;
use file_calls::Files;
use hart_mem::Mem;
use hart_step::Hart;
use runner_parts::{End, Turn};
use spec_base::{Layout, Move, Note, Park, SHADOW_START, ShadowState, Trap, Version, View};
use std::alloc::Global;
use std::test::Fail;
use world_io::{MemSink, MemStore};

const TEXT: u64 = 0x1_0000;

// A runner of `addi x0,x0,0`, behind which the text ends.
fn runner_of(alloc: Global) -> Result<Runner, Fail> {
    let mut words = Vec::new(alloc);
    words.push(0x0000_0013u32)?;
    let layout = Layout {
        text_start: TEXT,
        text_end: TEXT + 4,
        regions: 1,
        version: Version::One,
    };
    if !layout.is_lawful() || words.len() != 1 {
        return Err("layout".into());
    }
    let mem = Mem::new(alloc, layout, words)?;
    let hart = Hart::new(TEXT, View::Program);
    Ok(Runner::new(alloc, hart, mem, Files::new(TEXT + 4096, TEXT + 8192))?)
}

// One move of a runner that has made few.
fn turn(
    runner: &mut Runner,
    step: Move,
    store: &mut MemStore,
    sinks: &mut (MemSink, MemSink),
) -> Option<Turn> {
    if runner.moves() < 100 {
        Some(runner.go(step, store, &mut sinks.0, &mut sinks.1))
    } else {
        None
    }
}

// With no page spare nothing moves; then one instruction completes, and the next word is missing. The
// shadow and the fetches are idle, and an ended runner tells its end.
#[test]
fn one_instruction_and_the_end(rt: HostRuntime) -> Result<(), Fail> {
    let alloc = rt.alloc();
    let mut runner = runner_of(alloc)?;
    let mut store = MemStore::new(alloc, Vec::new(alloc));
    let out = MemSink::new(alloc, 0, Vec::new(alloc), Vec::new(alloc))?;
    let err = MemSink::new(alloc, 0, Vec::new(alloc), Vec::new(alloc))?;
    let mut sinks = (out, err);
    let end = Turn::Ended(End::Trap(Trap::FetchOut, TEXT + 4));
    let starved = turn(&mut runner, Move::O, &mut store, &mut sinks);
    assert!(rt; starved == Some(Turn::NoMemory));
    runner.reserve(17)?;
    let rows = [
        (Move::O, Turn::Went),
        (Move::S, Turn::Idle),
        (Move::T, Turn::Idle),
        (Move::D, Turn::Idle),
        (Move::O, end),
        (Move::D, end),
    ];
    for (step, wanted) in &rows {
        let told = turn(&mut runner, *step, &mut store, &mut sinks);
        assert!(rt; told == Some(*wanted));
    }
    assert!(rt; runner.own_done() == 1);
    assert!(rt; runner.moves() == 5);
    Ok(())
}

// At most five words of the program at once, of a runner that has made few moves.
fn words(runner: &mut Runner) -> Option<u64> {
    if runner.moves() < 100 {
        Some(runner.go_own(5))
    } else {
        None
    }
}

// Words are made at once up to one that traps, which isn't made.
#[test]
fn words_of_the_program_are_made_at_once(rt: HostRuntime) -> Result<(), Fail> {
    let alloc = rt.alloc();
    let mut runner = runner_of(alloc)?;
    assert!(rt; words(&mut runner) == Some(1));
    assert!(rt; words(&mut runner) == Some(0));
    assert!(rt; runner.own_done() == 1);
    assert!(rt; runner.moves() == 1);
    Ok(())
}

// At most five words of the shadow at once, of a runner that has made few moves.
fn shadow_words(runner: &mut Runner) -> Option<u64> {
    if runner.moves() < 100 {
        Some(runner.go_shadow(5))
    } else {
        None
    }
}

// Words of the shadow are made at once, while it runs, up to one that parks it. Its code is missing here.
#[test]
fn words_of_the_shadow_are_made_at_once(rt: HostRuntime) -> Result<(), Fail> {
    let alloc = rt.alloc();
    let mut runner = runner_of(alloc)?;
    assert!(rt; shadow_words(&mut runner) == Some(0));
    runner.shadow.set_pc(SHADOW_START + 4);
    runner.state = ShadowState::Running;
    assert!(rt; shadow_words(&mut runner) == Some(1));
    assert!(rt; runner.shadow() == ShadowState::Parked(Park::Fault));
    assert!(rt; runner.notes() == [Note::Park(Park::Fault)].as_slice());
    assert!(rt; shadow_words(&mut runner) == Some(0));
    assert!(rt; runner.moves() == 1);
    Ok(())
}
