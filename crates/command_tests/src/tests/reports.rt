//! Traces and reports of small programs that read, worked out by hand from the order of their moves.

use super::commands::{command, is_told};
use super::images::{behind_a_read, image_with_data};
use std::test::Fail;

// Behind a read: reads 4,096 bytes twice more, and exits with what the last read gave.
const READS_TWICE: [u32; 6] = [
    0x0004_8513, // addi x10,x9,0
    0x0000_0073, // ecall
    0x0004_8513, // addi x10,x9,0
    0x0000_0073, // ecall
    0x05D0_0893, // addi x17,x0,93
    0x0000_0073, // ecall
];

// Behind a read: stores to two regions, and exits.
const STORES_TWICE: [u32; 4] = [
    0x0004_3023, // sd x0,0(x8)
    0x1004_3023, // sd x0,256(x8)
    0x05D0_0893, // addi x17,x0,93
    0x0000_0073, // ecall
];

// Opens `data`, reads 64 bytes, seeks back and reads them again, reads as many as their first says, and exits with
// their number.
const READS_AS_TOLD: [u32; 25] = [
    0x0020_0437, // lui x8,0x200
    0x0004_0593, // addi x11,x8,0
    0x0000_0613, // addi x12,x0,0
    0x0380_0893, // addi x17,x0,56
    0x0000_0073, // ecall
    0x0005_0493, // addi x9,x10,0
    0x0020_15B7, // lui x11,0x201
    0x0400_0613, // addi x12,x0,64
    0x03F0_0893, // addi x17,x0,63
    0x0000_0073, // ecall
    0x0004_8513, // addi x10,x9,0
    0x0000_0593, // addi x11,x0,0
    0x0000_0613, // addi x12,x0,0
    0x03E0_0893, // addi x17,x0,62
    0x0000_0073, // ecall
    0x0004_8513, // addi x10,x9,0
    0x0020_15B7, // lui x11,0x201
    0x0400_0613, // addi x12,x0,64
    0x03F0_0893, // addi x17,x0,63
    0x0000_0073, // ecall
    0x0005_C603, // lbu x12,0(x11)
    0x0004_8513, // addi x10,x9,0
    0x0000_0073, // ecall
    0x05D0_0893, // addi x17,x0,93
    0x0000_0073, // ecall
];

// The shadow never moves, so that each read restarts it.
const STANDING: &[u8] = b"5 0 call 56 0 2097152 0 3\n\
    10 0 restart 64617461 0 4096\n\
    10 0 stall 64617461 0\n\
    10 0 fetch 64617461 0\n\
    11 0 call 63 3 2101248 4096 4096\n\
    12 0 restart 64617461 4096 904\n\
    12 0 stall 64617461 1\n\
    12 0 fetch 64617461 1\n\
    13 0 call 63 3 2101248 4096 904\n\
    14 0 restart 64617461 5000 0\n\
    15 0 call 63 3 2101248 4096 0\n\
    17 0 exit 0\n";

// The shadow hints both reads behind the first, of which the last gives nothing.
const HINTED: &[u8] =
    b"spechint: instructions 17 stalls 1 restarts 1 matched 2 hints 2 regions 0 shadow 6 parked Exit\n";

// A second region is wanted, where one is allowed.
const PARKED: &[u8] =
    b"spechint: instructions 15 stalls 1 restarts 1 matched 0 hints 0 regions 1 shadow 2 parked Regions\n";

// The second read restarts the shadow, which fills it from the cached block, and so the third is hinted.
const FILLED: &[u8] =
    b"spechint: instructions 25 stalls 1 restarts 2 matched 1 hints 1 regions 1 shadow 5 parked Exit\n";

// The same, told: the shadow is at its third instruction behind the read as it hints.
const FILLS: &[u8] = b"5 0 call 56 0 2097152 0 3\n\
    9 0 restart 64617461 0 64\n\
    9 0 stall 64617461 0\n\
    9 0 fetch 64617461 0\n\
    10 0 call 63 3 2101248 64 64\n\
    15 0 call 62 3 0 0 0\n\
    19 0 restart 64617461 0 64\n\
    19 0 fill 64617461 0 64\n\
    19 3 hint 64617461 64 7\n\
    19 3 fill 64617461 64 7\n\
    19 5 park Exit\n\
    20 5 call 63 3 2101248 64 64\n\
    23 5 match 64617461 64 7\n\
    23 5 call 63 3 2101248 7 7\n\
    25 5 exit 7\n";

// Words behind a read, a command line, the code, and what is put on both outputs.
type Row = (
    &'static [u32],
    &'static [&'static str],
    u8,
    &'static [u8],
    &'static [u8],
);

const ROWS: [Row; 3] = [
    (
        &READS_TWICE,
        &["trace", "--pattern", "O1D1", "w1"],
        0,
        STANDING,
        b"",
    ),
    (&READS_TWICE, &["run", "--report", "w1"], 0, b"", HINTED),
    (
        &STORES_TWICE,
        &["run", "--regions", "1", "--report", "w1"],
        0,
        b"",
        PARKED,
    ),
];

#[test]
fn a_program_that_reads_is_told(rt: HostRuntime) -> Result<(), Fail> {
    let alloc = rt.alloc();
    let data = vec![in alloc; 7u8; 5_000]?;
    for (words, line, code, out, err) in ROWS {
        let told = command(alloc, line, &behind_a_read(alloc, words)?, &data, &[], &[])?;
        assert!(rt; is_told(&told, code, out, err), "{line:?}");
    }
    Ok(())
}

// Command lines, and what is put on both outputs.
const FILLINGS: [(&[&str], &[u8], &[u8]); 3] = [
    (
        &["run", "--report", "--pattern=O72D1O71S1000O1000", "w1"],
        b"",
        FILLED,
    ),
    (
        &[
            "run",
            "--report",
            "--pattern=O72D1O71S1000O1000",
            "--regions=1",
            "w1",
        ],
        b"",
        FILLED,
    ),
    (&["trace", "--pattern=O72D1O71S1000O1000", "w1"], FILLS, b""),
];

#[test]
fn a_filled_read_is_told(rt: HostRuntime) -> Result<(), Fail> {
    let alloc = rt.alloc();
    let file = image_with_data(alloc, &READS_AS_TOLD)?;
    let data = vec![in alloc; 7u8; 5_000]?;
    for (line, out, err) in FILLINGS {
        let told = command(alloc, line, &file, &data, &[], &[])?;
        assert!(rt; is_told(&told, 7, out, err), "{line:?}");
    }
    Ok(())
}
