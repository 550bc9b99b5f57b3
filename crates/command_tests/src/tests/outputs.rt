//! Commands over outputs whose puts fail, or take one byte at a time.

use super::commands::{Told, command_over, is_told, output, slow_output};
use super::images::image;
use std::alloc::Global;
use std::test::Fail;
use world_io::MemSink;

// Puts the two bytes of its name on both outputs, then the first of them on both, and exits with 1.
const PUTS_ON_BOTH: [u32; 14] = [
    0x03D1_0593, // addi x11, x2, 61
    0x0400_0893, // addi x17, x0, 64
    0x0010_0513, // addi x10, x0, 1
    0x0020_0613, // addi x12, x0, 2
    0x0000_0073, // ecall
    0x0020_0513, // addi x10, x0, 2
    0x0000_0073, // ecall
    0x0010_0513, // addi x10, x0, 1
    0x0010_0613, // addi x12, x0, 1
    0x0000_0073, // ecall
    0x0020_0513, // addi x10, x0, 2
    0x0000_0073, // ecall
    0x05D0_0893, // addi x17, x0, 93
    0x0000_0073, // ecall
];

// The puts that fail on either output, the code, and what both took. Behind a failed put nothing is put.
const FAILED_PUTS: [(&[u64], &[u64], u8, &[u8], &[u8]); 5] = [
    (&[], &[], 1, b"w1w", b"w1w"),
    (&[1], &[], 123, b"", b""),
    (&[2], &[], 123, b"w1", b"w1"),
    (&[], &[1], 123, b"w1", b""),
    (&[], &[2], 123, b"w1w", b"w1"),
];

// What a command comes to over that program, and outputs whose puts with these numbers fail.
fn over_puts(alloc: Global, verb: &str, out: &[u64], err: &[u64]) -> Result<Told, Fail> {
    let file = image(alloc, &PUTS_ON_BOTH)?;
    let (out, err) = (output(alloc, out)?, output(alloc, err)?);
    command_over(alloc, &[verb, "w1"], &file, b"", &[], out, err)
}

#[test]
fn a_failed_put_of_the_program_is_the_last(rt: HostRuntime) -> Result<(), Fail> {
    for verb in ["plain", "run"] {
        for (stops, err_stops, code, out, err) in &FAILED_PUTS {
            let told = over_puts(rt.alloc(), verb, stops, err_stops)?;
            assert!(rt;
                is_told(&told, *code, out, err),
                "{verb} {stops:?} {err_stops:?}"
            );
        }
    }
    Ok(())
}

// What a trace of PUTS_ON_BOTH puts: nine lines, each of which is one put.
const LINES: &[u8] = b"5 0 text 1 7731\n\
    5 0 call 64 1 1073741821 2 2\n\
    7 0 text 2 7731\n\
    7 0 call 64 2 1073741821 2 2\n\
    10 0 text 1 77\n\
    10 0 call 64 1 1073741821 1 1\n\
    12 0 text 2 77\n\
    12 0 call 64 2 1073741821 1 1\n\
    14 0 exit 1\n";

// How much of it was put before each line.
const FRONTS: [usize; 9] = [0, 16, 45, 61, 90, 105, 135, 150, 180];

#[test]
fn a_trace_ends_before_the_line_that_fails(rt: HostRuntime) -> Result<(), Fail> {
    let mut number = 0u64;
    for front in FRONTS {
        number = number.wrapping_add(1);
        let told = over_puts(rt.alloc(), "trace", &[number], &[])?;
        let taken = LINES.get(..front).unwrap_or(LINES);
        assert!(rt; is_told(&told, 123, taken, b""), "line {number}");
    }
    Ok(())
}

// The program puts nothing by itself where it is traced.
#[test]
fn a_trace_puts_lines_alone(rt: HostRuntime) -> Result<(), Fail> {
    let told = over_puts(rt.alloc(), "trace", &[10], &[1, 2])?;
    assert!(rt; is_told(&told, 1, LINES, b""));
    Ok(())
}

// Puts the two bytes of its name, and then has no instruction.
const PUTS_AND_ENDS: [u32; 5] = [
    0x0010_0513, // addi x10, x0, 1
    0x03D1_0593, // addi x11, x2, 61
    0x0020_0613, // addi x12, x0, 2
    0x0400_0893, // addi x17, x0, 64
    0x0000_0073, // ecall
];

// What its run puts on standard error: the report in one put, and the text of the trap in five.
const REPORT: &[u8] =
    b"spechint: instructions 5 stalls 0 restarts 0 matched 0 hints 0 regions 0 shadow 0 never\nspechint: trap FetchOut at 0x1008c\n";

// Whether its run over this standard error ends with a code, and standard error takes so many bytes of that.
fn reports(alloc: Global, err: MemSink, code: u8, taken: usize) -> Result<bool, Fail> {
    let file = image(alloc, &PUTS_AND_ENDS)?;
    let words = ["run", "--report", "w1"];
    let told = command_over(alloc, &words, &file, b"", &[], output(alloc, &[])?, err)?;
    let taken = REPORT.get(..taken).unwrap_or(b"");
    Ok(is_told(&told, code, b"w1", taken))
}

// The put on standard error that fails, the code, and how many bytes were taken.
const FAILED_TEXTS: [(u64, u8, usize); 7] = [
    (1, 123, 0),
    (2, 126, 88),
    (3, 126, 103),
    (4, 126, 111),
    (5, 126, 117),
    (6, 126, 122),
    (7, 126, 123),
];

#[test]
fn a_failed_report_is_a_fault_and_a_failed_text_none(rt: HostRuntime) -> Result<(), Fail> {
    let alloc = rt.alloc();
    for (number, code, taken) in FAILED_TEXTS {
        let err = output(alloc, &[number])?;
        assert!(rt; reports(alloc, err, code, taken)?, "put {number}");
    }
    Ok(())
}

// The same where each put takes one byte.
const SLOW_TEXTS: [(u64, u8, usize); 5] = [
    (1, 123, 0),
    (88, 123, 87),
    (89, 126, 88),
    (123, 126, 122),
    (124, 126, 123),
];

#[test]
fn a_report_is_put_byte_by_byte(rt: HostRuntime) -> Result<(), Fail> {
    let alloc = rt.alloc();
    for (number, code, taken) in SLOW_TEXTS {
        let err = slow_output(alloc, &[number])?;
        assert!(rt; reports(alloc, err, code, taken)?, "put {number}");
    }
    Ok(())
}

// Puts the two bytes of its name until all are taken, and exits with the number of puts.
const PUTS_ALL: [u32; 12] = [
    0x03D1_0593, // addi x11, x2, 61
    0x0020_0613, // addi x12, x0, 2
    0x0400_0893, // addi x17, x0, 64
    0x0010_0513, // addi x10, x0, 1
    0x0000_0073, // ecall
    0x00A5_85B3, // add x11, x11, x10
    0x40A6_0633, // sub x12, x12, x10
    0x0016_8693, // addi x13, x13, 1
    0xFE06_16E3, // bne x12, x0, -20
    0x0006_8513, // addi x10, x13, 0
    0x05D0_0893, // addi x17, x0, 93
    0x0000_0073, // ecall
];

// What a command comes to over a program and outputs that take one byte of each put.
fn over_slow(alloc: Global, verb: &str, words: &[u32]) -> Result<Told, Fail> {
    let file = image(alloc, words)?;
    let (out, err) = (slow_output(alloc, &[])?, slow_output(alloc, &[])?);
    command_over(alloc, &[verb, "w1"], &file, b"", &[], out, err)
}

#[test]
fn outputs_that_take_one_byte_get_them_all(rt: HostRuntime) -> Result<(), Fail> {
    let rows: [(&str, &[u32], u8, &[u8]); 3] = [
        ("plain", &PUTS_ALL, 2, b"w1"),
        ("run", &PUTS_ALL, 2, b"w1"),
        ("trace", &PUTS_ON_BOTH, 1, LINES),
    ];
    for (verb, words, code, out) in rows {
        let told = over_slow(rt.alloc(), verb, words)?;
        assert!(rt; is_told(&told, code, out, b""), "{verb}");
    }
    Ok(())
}
