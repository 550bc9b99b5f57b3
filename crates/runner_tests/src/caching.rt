//! Which block leaves a full cache.

use crate::machines::{EXITS, demo, joined, to_the_end, with_data};
use runner_parts::{End, Turn};
use std::alloc::Global;
use std::test::Fail;

// Seeks to block 0, and reads 64 bytes of it.
const NEAR: [u32; 10] = [
    0x0004_8513, // addi x10, x9, 0
    0x0000_0593, // addi x11, x0, 0
    0x0000_0613, // addi x12, x0, 0
    0x03E0_0893, // addi x17, x0, 62
    0x0000_0073, // ecall
    0x0004_8513, // addi x10, x9, 0
    0x0020_15B7, // lui x11, 0x201
    0x0400_0613, // addi x12, x0, 64
    0x03F0_0893, // addi x17, x0, 63
    0x0000_0073, // ecall
];

// Seeks to block 256, and reads 64 bytes of it.
const FAR: [u32; 10] = [
    0x0004_8513, // addi x10, x9, 0
    0x0010_05B7, // lui x11, 0x100
    0x0000_0613, // addi x12, x0, 0
    0x03E0_0893, // addi x17, x0, 62
    0x0000_0073, // ecall
    0x0004_8513, // addi x10, x9, 0
    0x0020_15B7, // lui x11, 0x201
    0x0400_0613, // addi x12, x0, 64
    0x03F0_0893, // addi x17, x0, 63
    0x0000_0073, // ecall
];

// A program that reads of 256 blocks in order.
fn fills_a_cache(alloc: Global) -> Result<Vec<u32>, Fail> {
    let words = demo(alloc, 0, 256)?;
    match words.get(..23) {
        Some(loops) => Ok(loops.to_vec(alloc)?),
        None => Err("short".into()),
    }
}

// How often a program waits that reads of 256 blocks in order and then these, where its shadow stands still. None where
// it doesn't end well.
fn stalls(alloc: Global, behind: &[&[u32]]) -> Result<Option<u64>, Fail> {
    let start = fills_a_cache(alloc)?;
    let uses = joined(alloc, behind)?;
    let words = joined(
        alloc,
        &[start.as_slice(), uses.as_slice(), EXITS.as_slice()],
    )?;
    let mut machine = with_data(alloc, &words, 257)?;
    if to_the_end(&mut machine, 0) == Turn::Ended(End::Exit(0)) {
        Ok(Some(machine.runner.stalls()))
    } else {
        Ok(None)
    }
}

// The cache has 256 blocks. A read of block 0 makes it the last to go, so block 256 takes the place of block 1.
#[test]
fn the_least_recent_block_leaves(rt: HostRuntime) -> Result<(), Fail> {
    assert!(rt;
        stalls(
            rt.alloc(),
            &[NEAR.as_slice(), FAR.as_slice(), NEAR.as_slice()]
        )? == Some(257)
    );
    assert!(rt; stalls(rt.alloc(), &[FAR.as_slice(), NEAR.as_slice()])? == Some(258));
    Ok(())
}
