//! The first uses in a trace, over a store and two outputs in memory.

use super::commands::{Told, command};
use super::images::behind_a_read;
use std::alloc::Global;
use std::test::Fail;

// Loads a byte of what was read by this word, and exits with x10.
fn loading(alloc: Global, load: u32) -> Result<Vec<u8>, Fail> {
    // addi x17,x0,93; ecall
    behind_a_read(alloc, &[load, 0x05D0_0893, 0x0000_0073])
}

// What a command line comes to over a program that loads by this word, and `data` of two blocks.
fn over_load(alloc: Global, words: &[&str], load: u32) -> Result<Told, Fail> {
    let data = vec![in alloc; 7u8; 5_000]?;
    command(alloc, words, &loading(alloc, load)?, &data, &[], &[])
}

#[test]
fn a_trace_tells_the_first_use(rt: HostRuntime) -> Result<(), Fail> {
    let alloc = rt.alloc();
    let words = ["trace", "--uses", "w1"];
    // lbu x10,0(x11): the exit's code is the byte.
    let told = over_load(alloc, &words, 0x0005_C503)?;
    assert_eq!(rt; told.status.code(), 7);
    assert!(rt;
        told.out
            .as_slice()
            .ends_with(b"\n14 3 use 4\n14 3 exit 7\n")
    );
    // lbu x5,0(x11): nothing uses it.
    let with = over_load(alloc, &words, 0x0005_C283)?;
    let without = over_load(alloc, &["trace", "w1"], 0x0005_C283)?;
    assert!(rt; with.out.as_slice() == without.out.as_slice());
    Ok(())
}

// Seeks to the block that the first byte of the first block names, reads there, and exits with the byte that it then
// loads. The shadow's seek rests on the byte that it skipped, so that the second read restarts it: the seek is
// instruction 8 from the first restart, the exit is instruction 4 from the second.
const SEEKS_BY_A_BYTE: [u32; 15] = [
    0x0005_C283, // lbu x5,0(x11)
    0x00C2_9293, // slli x5,x5,12
    0x0002_8593, // addi x11,x5,0
    0x0004_8513, // addi x10,x9,0
    0x0000_0613, // addi x12,x0,0
    0x03E0_0893, // addi x17,x0,62
    0x0000_0073, // ecall: the seek by a marked x11
    0x0004_8513, // addi x10,x9,0
    0x0020_15B7, // lui x11,0x201
    0x0400_0613, // addi x12,x0,64
    0x03F0_0893, // addi x17,x0,63
    0x0000_0073, // ecall: the read that restarts it once more
    0x0005_C503, // lbu x10,0(x11)
    0x05D0_0893, // addi x17,x0,93
    0x0000_0073, // ecall: the exit with a marked x10
];

#[test]
fn a_trace_tells_the_first_use_of_each_restart(rt: HostRuntime) -> Result<(), Fail> {
    let alloc = rt.alloc();
    let file = behind_a_read(alloc, &SEEKS_BY_A_BYTE)?;
    let data = vec![in alloc; 7u8; 163_840]?;
    let told = command(alloc, &["trace", "--uses", "w1"], &file, &data, &[], &[])?;
    assert_eq!(rt; told.status.code(), 7);
    assert!(rt;
        told.out.as_slice().ends_with(
            b"\n18 15 use 8\n\
            18 15 call 62 3 28672 0 28672\n\
            22 0 restart 64617461 28672 64\n\
            22 3 park Exit\n\
            22 3 stall 64617461 7\n\
            22 3 fetch 64617461 7\n\
            23 3 call 63 3 2101248 64 64\n\
            26 3 use 4\n\
            26 3 exit 7\n"
        )
    );
    Ok(())
}
