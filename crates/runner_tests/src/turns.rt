//! Turns and notes of a program of three reads, and of runs that have ended.

use crate::machines::{
    Machine, OPENS, add_equal, block, counts, go, joined, machine_of, read, tells, to_the_end,
    to_the_first_stall, told, until_told,
};
use runner_parts::{End, Turn};
use spec_base::{Move, Note, Park, ReadSpot, ShadowState};
use std::alloc::Global;
use std::test::Fail;

// Behind the open: three reads of 4,096 bytes, and the exit with 0.
const READS: [u32; 11] = [
    0x0004_8513, // addi x10, x9, 0
    0x0020_15B7, // lui x11, 0x201
    0x0000_1637, // lui x12, 1
    0x03F0_0893, // addi x17, x0, 63
    0x0000_0073, // ecall
    0x0004_8513, // addi x10, x9, 0
    0x0000_0073, // ecall
    0x0004_8513, // addi x10, x9, 0
    0x0000_0073, // ecall
    0x05D0_0893, // addi x17, x0, 93
    0x0000_0073, // ecall
];

fn three_reads(alloc: Global, fails: &[u64]) -> Result<Box<Machine>, Fail> {
    let words = joined(alloc, &[OPENS.as_slice(), READS.as_slice()])?;
    let mut machine = machine_of(alloc, &words, fails)?;
    add_equal(&mut machine, alloc, b"data", 7, 5_000)?;
    Ok(machine)
}

// A read that has been performed.
fn call(answer: i64) -> Note {
    Note::Call {
        number: 63,
        a0: 3,
        a1: 0x20_1000,
        a2: 4096,
        answer,
    }
}

// What the moves behind the open tell. The program waits in its first read, and the shadow hints the other two. Then
// the blocks are fetched.
fn row(number: u64) -> Result<(Move, Note), Fail> {
    Ok(match number {
        0 => (Move::O, Note::Restart(read(0, 4096)?)),
        1 => (Move::O, Note::Stall(block(0)?)),
        2 => (Move::S, Note::Hint(read(4096, 904)?)),
        3 => (Move::T, Note::Hint(read(5000, 0)?)),
        4 => (Move::T, Note::Park(Park::Exit)),
        5 => (Move::D, Note::Fetch(block(0)?)),
        6 => (Move::D, Note::Fetch(block(1)?)),
        _ => (Move::O, call(4096)),
    })
}

// How many of these eight rows are told, up to the first that isn't.
fn rows_told(machine: &mut Machine) -> Result<u64, Fail> {
    until_told(machine, Move::O);
    for number in 0..8 {
        let (step, note) = row(number)?;
        if !tells(machine, step, note) {
            return Ok(number);
        }
    }
    Ok(8)
}

// Whether the program's next call is a read that was hinted.
fn matches(machine: &mut Machine, spot: ReadSpot, answer: i64) -> bool {
    until_told(machine, Move::O);
    let notes = [Note::Match(spot), call(answer)];
    machine.runner.notes() == notes.as_slice()
}

// Whether the program exits next, with 0.
fn exits(machine: &mut Machine) -> bool {
    let turn = until_told(machine, Move::O);
    turn == Turn::Ended(End::Exit(0)) && told(machine, Note::Exit(0))
}

// Whether all behind the first answer is right.
fn goes_on_well(machine: &mut Machine) -> Result<bool, Fail> {
    let idle = go(machine, Move::S) == Turn::Idle && go(machine, Move::D) == Turn::Idle;
    let second = matches(machine, read(4096, 904)?, 904);
    let third = matches(machine, read(5000, 0)?, 0);
    Ok(idle && second && third && exits(machine))
}

#[test]
fn three_reads_turn_by_turn(rt: HostRuntime) -> Result<(), Fail> {
    let mut machine = three_reads(rt.alloc(), &[])?;
    assert_eq!(rt; rows_told(&mut machine)?, 8);
    assert!(rt; goes_on_well(&mut machine)?);
    let told = counts(&machine);
    assert!(rt; told == [told[0], 17, 1, 1, 2, 2, 0, told[7], 6]);
    assert!(rt; machine.runner.shadow() == ShadowState::Parked(Park::Exit));
    Ok(())
}

// The turn of a move, where it counts as one.
fn counted(machine: &mut Machine, step: Move) -> Option<Turn> {
    let before = machine.runner.moves();
    let turn = go(machine, step);
    if machine.runner.moves() == before.saturating_add(1) {
        Some(turn)
    } else {
        None
    }
}

// The own hart waits, and nothing else moves: its moves are idle, and count.
#[test]
fn a_hart_that_waits_is_idle(rt: HostRuntime) -> Result<(), Fail> {
    let mut machine = three_reads(rt.alloc(), &[])?;
    assert!(rt; counted(&mut machine, Move::T) == Some(Turn::Idle));
    to_the_first_stall(&mut machine);
    assert!(rt; counted(&mut machine, Move::O) == Some(Turn::Idle));
    assert!(rt; counted(&mut machine, Move::T) == Some(Turn::Went));
    assert!(rt; counted(&mut machine, Move::S) == Some(Turn::Went));
    Ok(())
}

// Whether a move tells the end again, counts nothing and tells nothing else.
fn stands_still(machine: &mut Machine, step: Move, end: End) -> bool {
    let moves = machine.runner.moves();
    go(machine, step) == Turn::Ended(end)
        && machine.runner.notes().is_empty()
        && machine.runner.moves() == moves
}

// The turn that ends a run whose store fails in this call, where nothing moves behind it.
fn last_turn(alloc: Global, fails: u64, end: End) -> Result<Option<Turn>, Fail> {
    let mut machine = three_reads(alloc, &[fails])?;
    let turn = to_the_end(&mut machine, 1);
    for step in &[Move::O, Move::S, Move::T, Move::D] {
        if !stands_still(&mut machine, *step, end) {
            return Ok(None);
        }
    }
    Ok(Some(turn))
}

// Call 1 of the store is the program's look, call 2 the demanded fetch.
#[test]
fn nothing_moves_behind_an_end(rt: HostRuntime) -> Result<(), Fail> {
    let alloc = rt.alloc();
    assert!(rt; last_turn(alloc, 1, End::Store)? == Some(Turn::StoreFault));
    assert!(rt; last_turn(alloc, 2, End::Store)? == Some(Turn::StoreFault));
    let exit = End::Exit(0);
    assert!(rt; last_turn(alloc, 9, exit)? == Some(Turn::Ended(exit)));
    Ok(())
}

// With a shadow that stands still the own hart comes past it as it completes its read. A restart puts it behind again.
#[test]
fn ahead_is_lost_and_won_again(rt: HostRuntime) -> Result<(), Fail> {
    let mut machine = three_reads(rt.alloc(), &[])?;
    to_the_first_stall(&mut machine);
    assert!(rt; machine.runner.ahead());
    until_told(&mut machine, Move::D);
    until_told(&mut machine, Move::O);
    assert!(rt; !machine.runner.ahead());
    assert!(rt; tells(&mut machine, Move::O, Note::Restart(read(4096, 904)?)));
    assert!(rt; machine.runner.ahead());
    Ok(())
}
