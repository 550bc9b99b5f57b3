//! Restarts while the shadow is between any two words.

use crate::machines::{
    EXITS, Machine, OPENS, block, go, go_many, joined, matched, put_out, read, tells, to_the_end,
    told, until_told, with_data,
};
use runner_parts::{End, Turn};
use spec_base::{Move, Note};
use std::alloc::Global;
use std::test::Fail;

// Behind the open: reads 64 bytes of each of six blocks. Behind each read it stores the place of the read after the
// next, and loads that of the next, which it has stored behind the read before.
const SIX_READS: [u32; 21] = [
    0x0000_1A37, // lui x20, 1
    0x0000_29B7, // lui x19, 2
    0x0000_8B37, // lui x22, 8
    0x0000_0913, // addi x18, x0, 0
    0x1044_0A93, // addi x21, x8, 260
    0x1144_2023, // sw x20, 256(x8)
    0x0004_8513, // addi x10, x9, 0
    0x0009_0593, // addi x11, x18, 0
    0x0000_0613, // addi x12, x0, 0
    0x03E0_0893, // addi x17, x0, 62
    0x0000_0073, // ecall
    0x0004_8513, // addi x10, x9, 0
    0x0020_15B7, // lui x11, 0x201
    0x0400_0613, // addi x12, x0, 64
    0x03F0_0893, // addi x17, x0, 63
    0x0000_0073, // ecall
    0x013A_A023, // sw x19, 0(x21)
    0xFFCA_A903, // lw x18, -4(x21)
    0x0149_89B3, // add x19, x19, x20
    0x004A_8A93, // addi x21, x21, 4
    0xFD69_94E3, // bne x19, x22, -56
];

// Puts `done` and a newline.
const PUTS: [u32; 5] = [
    0x0010_0513, // addi x10, x0, 1
    0x0084_0593, // addi x11, x8, 8
    0x0050_0613, // addi x12, x0, 5
    0x0400_0893, // addi x17, x0, 64
    0x0000_0073, // ecall
];

fn six_reads(alloc: Global) -> Result<Box<Machine>, Fail> {
    let words = joined(
        alloc,
        &[
            OPENS.as_slice(),
            SIX_READS.as_slice(),
            PUTS.as_slice(),
            EXITS.as_slice(),
        ],
    )?;
    with_data(alloc, &words, 6)
}

// The own hart goes on to its next read: whether that restarts the shadow, and waits for its block.
fn restarts_at(machine: &mut Machine, number: u64) -> Result<bool, Fail> {
    let restart = Note::Restart(read(4096 * (number % 6), 64)?);
    for _ in 0..4 {
        until_told(machine, Move::O);
        if told(machine, restart) {
            return Ok(tells(machine, Move::O, Note::Stall(block(number)?)));
        }
    }
    Ok(false)
}

// The next read restarts the shadow, which makes so many words. Then the block is there.
fn breaks_off(machine: &mut Machine, number: u64, words: u64) -> Result<bool, Fail> {
    let restarts = restarts_at(machine, number)?;
    go_many(machine, Move::S, words);
    until_told(machine, Move::D);
    Ok(restarts)
}

// Behind the third restart: whether the next hint is the right one, the other reads match, and the program ends well.
fn goes_on_well(machine: &mut Machine) -> Result<bool, Fail> {
    let hint = tells(machine, Move::S, Note::Hint(read(4096 * 3, 64)?));
    let end = to_the_end(machine, 20) == Turn::Ended(End::Exit(0));
    Ok(hint && end && matched(machine) == (3, 3) && put_out(machine) == b"done\n".as_slice())
}

// So many words of the shadow are made behind the first restart, and as many as `more` behind the second. The most
// regions in use, where the second and the third read restart it, and all goes on well then.
fn regions(alloc: Global, words: u64, more: u64) -> Result<Option<u64>, Fail> {
    let mut machine = six_reads(alloc)?;
    let first = breaks_off(&mut machine, 0, words)?;
    let second = breaks_off(&mut machine, 1, more)?;
    let third = restarts_at(&mut machine, 2)?;
    if first && second && third && goes_on_well(&mut machine)? {
        Ok(Some(machine.runner.regions_most()))
    } else {
        Ok(None)
    }
}

// How many words the shadow makes from the first restart to its first hint: RESTART, the blocks up to the store, the
// words that copy its region, and the blocks up to the next read.
fn words_to_the_hint(alloc: Global) -> Result<u64, Fail> {
    let mut machine = six_reads(alloc)?;
    restarts_at(&mut machine, 0)?;
    for words in 0..1_000 {
        if machine.runner.hints() != 0 {
            return Ok(words);
        }
        go(&mut machine, Move::S);
    }
    Ok(0)
}

// The first number of words behind which something goes wrong as the shadow is restarted.
fn first_wrong_copying(alloc: Global, all: u64) -> Result<u64, Fail> {
    for words in 0..all {
        if regions(alloc, words, 0)?.is_none() {
            return Ok(words);
        }
    }
    Ok(all)
}

// The first number of words behind the second restart behind which something goes wrong as the shadow is restarted.
fn first_wrong_clearing(alloc: Global, copied: u64, all: u64) -> Result<u64, Fail> {
    for more in 0..all {
        if regions(alloc, copied, more)? != Some(1) {
            return Ok(more);
        }
    }
    Ok(all)
}

// Behind each word up to the one that logs the next read, so that it matches. That is among the last 20.
#[test]
fn copying_may_break_off_anywhere(rt: HostRuntime) -> Result<(), Fail> {
    let all = words_to_the_hint(rt.alloc())?;
    let right = first_wrong_copying(rt.alloc(), all)?;
    assert!(rt; right > 100 && right.saturating_add(20) > all);
    Ok(())
}

// The region is copied, and its clearing breaks off.
#[test]
fn clearing_may_break_off_anywhere(rt: HostRuntime) -> Result<(), Fail> {
    let copied = words_to_the_hint(rt.alloc())?.saturating_sub(20);
    assert_eq!(rt; first_wrong_clearing(rt.alloc(), copied, 90)?, 90);
    Ok(())
}
