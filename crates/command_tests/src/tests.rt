//! The commands over a store and two outputs in memory.

mod commands;
mod files;
mod images;
mod outputs;
mod patterns;
mod reaching;
mod reports;
mod rewriting;
mod stores;
mod traces;
mod uses;

use commands::{Row, first_wrong, is_told, over_reads, told_by};
use elf_image::Refusal;
use images::{EXITS, image};
use spec_base::Trap;
use spechint_commands::Status;
use std::alloc::Global;
use std::test::Fail;

// Puts the name that it is called by, and exits with 0.
const PUTS_ITS_NAME: [u32; 8] = [
    0x0010_0513, // addi x10,x0,1
    0x03D1_0593, // addi x11,x2,61
    0x0020_0613, // addi x12,x0,2
    0x0400_0893, // addi x17,x0,64
    0x0000_0073, // ecall
    0x0000_0513, // addi x10,x0,0
    0x05D0_0893, // addi x17,x0,93
    0x0000_0073, // ecall
];

// One ADDI, and then nothing.
const ENDS: [u32; 1] = [0x0070_0513];

// No instruction.
const ILLEGAL: [u32; 1] = [0];

#[test]
fn a_program_ends(rt: HostRuntime) -> Result<(), Fail> {
    let alloc = rt.alloc();
    let rows: [(&[u32], u8, &[u8], &[u8]); 3] = [
        (&PUTS_ITS_NAME, 0, b"w1", b""),
        (&ENDS, 126, b"", b"spechint: trap FetchOut at 0x1007c\n"),
        (&ILLEGAL, 126, b"", b"spechint: trap Illegal at 0x10078\n"),
    ];
    for (words, code, out, err) in rows {
        let told = told_by(alloc, "plain", &image(alloc, words)?)?;
        assert!(rt; is_told(&told, code, out, err), "{words:?}");
    }
    Ok(())
}

#[test]
fn each_status_has_its_code(rt: HostRuntime) -> Result<(), Fail> {
    let rows = [
        (Status::Exited(255), 255u8),
        (Status::Done, 0),
        (Status::TooMany, 117),
        (Status::BadLine(1), 118),
        (Status::Absent, 119),
        (Status::Usage, 120),
        (Status::Refused(Refusal::Magic), 121),
        (Status::StoreFault, 122),
        (Status::SinkFault, 123),
        (Status::TurnsOver(5), 124),
        (Status::NoMemory, 125),
        (Status::Trapped(Trap::Break, 0), 126),
    ];
    for (status, code) in &rows {
        assert_eq!(rt; status.code(), *code);
    }
    Ok(())
}

const USAGE: &[u8] =
    b"spechint: usage: spechint plain|rewrite|run|trace [OPTIONS] IMAGE [ARGS], or spechint demo N\n";

const NEVER: &[u8] =
    b"spechint: instructions 3 stalls 0 restarts 0 matched 0 hints 0 regions 0 shadow 0 never\n";

// Command lines over a program that exits with 7.
const LINES: [Row; 12] = [
    (&["plain", "w1"], 7, b"", b""),
    (&["run", "--report", "w1"], 7, b"", NEVER),
    (&["trace", "w1"], 7, b"3 0 exit 7\n", b""),
    (
        &["run", "--pattern", "S1", "--turns", "1000", "w1"],
        124,
        b"",
        b"spechint: turns over after 0 instructions\n",
    ),
    (&["plain", "w2"], 119, b"", b"spechint: cannot find w2\n"),
    (&["replay", "w2"], 119, b"", b"spechint: cannot find w2\n"),
    (&["plan", "w1"], 118, b"", b"spechint: w1: bad line 1\n"),
    (&[], 120, b"", USAGE),
    (&["plain", "--report", "w1"], 120, b"", USAGE),
    (&["plain", "--turns", "0", "w1"], 120, b"", USAGE),
    (&["rewrite", "w1", "w1"], 120, b"", USAGE),
    (&["run", "--layout", "3", "w1"], 120, b"", USAGE),
];

#[test]
fn a_command_line_comes_to_its_end(rt: HostRuntime) -> Result<(), Fail> {
    let file = image(rt.alloc(), &EXITS)?;
    assert_eq!(rt; first_wrong(rt.alloc(), &LINES, &file)?, None);
    Ok(())
}

// A program that makes the call of this number with one more register set, and exits with the answer.
fn call(alloc: Global, number: u32, set: u32) -> Result<Vec<u8>, Fail> {
    image(
        alloc,
        &[
            number << 20 | 0x893,
            set,
            0x0000_0073,
            0x05D0_0893,
            0x0000_0073,
        ],
    )
}

#[test]
fn each_call_has_its_answer(rt: HostRuntime) -> Result<(), Fail> {
    let alloc = rt.alloc();
    let rows = [
        (57, 0x0090_0513, 247u8),
        (62, 0x0010_0513, 227),
        (63, 0x0000_0513, 247),
        (56, 0x0000_0593, 242),
        (56, 0x0010_0613, 234),
        (214, 0x0000_0513, 144),
        (1, 0x0000_0513, 218),
    ];
    for (number, set, code) in rows {
        let told = told_by(alloc, "plain", &call(alloc, number, set)?)?;
        assert!(rt; is_told(&told, code, b"", b""), "{number}");
    }
    Ok(())
}

// Command lines over a program that reads 40 blocks.
const READINGS: [Row; 4] = [
    (&["plain", "w1"], 0, b"done\n", b""),
    (&["plain", "--turns", "577", "w1"], 0, b"done\n", b""),
    (
        &["plain", "w1", "--turns=576"],
        124,
        b"done\n",
        b"spechint: turns over after 576 instructions\n",
    ),
    (
        &["run", "--report", "w1"],
        0,
        b"done\n",
        b"spechint: instructions 577 stalls 1 restarts 1 matched 39 hints 39 regions 1 shadow 558 parked Exit\n",
    ),
];

#[test]
fn a_program_reads_its_file(rt: HostRuntime) -> Result<(), Fail> {
    for (words, code, out, err) in READINGS {
        let told = over_reads(rt.alloc(), words, &[])?;
        assert!(rt; is_told(&told, code, out, err), "{words:?}");
    }
    Ok(())
}

const LOAD_OUT: &[u8] = b"spechint: trap LoadOut at 0x1007c\n";

#[test]
fn the_layout_moves_the_end_of_the_range(rt: HostRuntime) -> Result<(), Fail> {
    // lui x5,0x10000; lbu x10,0(x5); addi x17,x0,93; ecall
    let words = [0x1000_02B7, 0x0002_C503, 0x05D0_0893, 0x0000_0073];
    let rows: [Row; 4] = [
        (&["plain", "w1"], 0, b"", b""),
        (&["run", "w1"], 0, b"", b""),
        (&["plain", "--layout", "1", "w1"], 126, b"", LOAD_OUT),
        (&["run", "--layout", "1", "w1"], 126, b"", LOAD_OUT),
    ];
    let file = image(rt.alloc(), &words)?;
    assert_eq!(rt; first_wrong(rt.alloc(), &rows, &file)?, None);
    Ok(())
}
