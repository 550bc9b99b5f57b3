//! The log of hints over its wrap, and an open of a name that the shadow has stored.

use crate::machines::{
    EXITS, Machine, OPENS, add_equal, demo_machine, go, go_many, joined, machine_of, matched, name,
    put_out, tells, to_the_end, to_the_first_stall,
};
use runner_parts::{End, Turn};
use spec_base::{Move, Note, Park, ReadSpot, ShadowState};
use std::alloc::Global;
use std::test::Fail;

// The shadow moves until it has given so many hints.
fn until_hints(machine: &mut Machine, wanted: u64) {
    for _ in 0..100_000 {
        if machine.runner.hints() < wanted {
            go(machine, Move::S);
            go(machine, Move::D);
        }
    }
}

// The program moves until so many of its reads have matched.
fn until_matched(machine: &mut Machine, wanted: u64) {
    for _ in 0..100_000 {
        if machine.runner.matched() < wanted {
            go(machine, Move::O);
            go(machine, Move::D);
        }
    }
}

// A program of 130 reads that has restarted its shadow before the first.
fn demo(alloc: Global) -> Result<Box<Machine>, Fail> {
    let mut machine = demo_machine(alloc, 0, 130)?;
    to_the_first_stall(&mut machine);
    Ok(machine)
}

// The shadow moves until it parks, and how many hints it has given then.
fn until_full(machine: &mut Machine) -> Option<u64> {
    go_many(machine, Move::S, 20_000);
    if machine.runner.shadow() == ShadowState::Parked(Park::LogFull) {
        Some(machine.runner.hints())
    } else {
        None
    }
}

// Whether the program ends with 0, and what it has put is `done`.
fn ends_well(machine: &mut Machine) -> bool {
    to_the_end(machine, 0) == Turn::Ended(End::Exit(0)) && put_out(machine) == b"done\n".as_slice()
}

// The log has 64 pairs. With 40 given and 30 matched it takes 54 more, of which 30 stand at its start again. All that
// it holds match, and the next read restarts the shadow.
#[test]
fn a_log_is_full_over_its_wrap(rt: HostRuntime) -> Result<(), Fail> {
    let mut machine = demo(rt.alloc())?;
    until_hints(&mut machine, 40);
    until_matched(&mut machine, 30);
    assert!(rt; until_full(&mut machine) == Some(94));
    until_matched(&mut machine, 94);
    assert!(rt; matched(&machine) == (94, 1));
    assert!(rt; ends_well(&mut machine));
    assert!(rt; matched(&machine) == (94, 36));
    Ok(())
}

// Behind the open: a read; then `b` is stored over the name's first byte, and the file of the new name is opened and read.
const OPENS_ANOTHER: [u32; 14] = [
    0x0020_15B7, // lui x11, 0x201
    0x0400_0613, // addi x12, x0, 64
    0x03F0_0893, // addi x17, x0, 63
    0x0000_0073, // ecall
    0x0620_0293, // addi x5, x0, 98
    0x0054_0023, // sb x5, 0(x8)
    0x0004_0593, // addi x11, x8, 0
    0x0000_0613, // addi x12, x0, 0
    0x0380_0893, // addi x17, x0, 56
    0x0000_0073, // ecall
    0x0020_15B7, // lui x11, 0x201
    0x0400_0613, // addi x12, x0, 64
    0x03F0_0893, // addi x17, x0, 63
    0x0000_0073, // ecall
];

// That program, with both files, waiting in its first read.
fn another(alloc: Global) -> Result<Box<Machine>, Fail> {
    let words = joined(
        alloc,
        &[OPENS.as_slice(), OPENS_ANOTHER.as_slice(), EXITS.as_slice()],
    )?;
    let mut machine = machine_of(alloc, &words, &[])?;
    add_equal(&mut machine, alloc, b"data", 1, 100)?;
    add_equal(&mut machine, alloc, b"bata", 2, 30)?;
    to_the_first_stall(&mut machine);
    Ok(machine)
}

#[test]
fn the_shadow_opens_the_name_in_its_copies(rt: HostRuntime) -> Result<(), Fail> {
    let mut machine = another(rt.alloc())?;
    let hinted = ReadSpot {
        name: name(b"bata")?,
        offset: 0,
        count: 30,
    };
    assert!(rt; tells(&mut machine, Move::S, Note::Hint(hinted)));
    assert!(rt; to_the_end(&mut machine, 0) == Turn::Ended(End::Exit(0)));
    assert!(rt; matched(&machine) == (1, 1));
    Ok(())
}
