//! Files in the shape of a GNU link, and files that are cut off.

use super::commands::{is_told, told_by};
use super::images::{EXITS, image, linked};
use std::alloc::Global;
use std::test::Fail;

// Puts the three bytes at 0x10200, having loaded the first, and exits with 0.
const PUTS_A_STRING: [u32; 10] = [
    0x0001_05B7, // lui x11,0x10
    0x2005_8593, // addi x11,x11,512
    0x0005_C283, // lbu x5,0(x11)
    0x0010_0513, // addi x10,x0,1
    0x0030_0613, // addi x12,x0,3
    0x0400_0893, // addi x17,x0,64
    0x0000_0073, // ecall
    0x0000_0513, // addi x10,x0,0
    0x05D0_0893, // addi x17,x0,93
    0x0000_0073, // ecall
];

// Puts the 64 bytes at 0x10000, and exits with 0.
const PUTS_THE_HEADER: [u32; 8] = [
    0x0001_05B7, // lui x11,0x10
    0x0010_0513, // addi x10,x0,1
    0x0400_0613, // addi x12,x0,64
    0x0400_0893, // addi x17,x0,64
    0x0000_0073, // ecall
    0x0000_0513, // addi x10,x0,0
    0x05D0_0893, // addi x17,x0,93
    0x0000_0073, // ecall
];

// What is read-only data by the sections is text without them, and no text is loaded.
#[test]
fn the_sections_tell_text_from_data(rt: HostRuntime) -> Result<(), Fail> {
    let alloc = rt.alloc();
    let with = linked(alloc, &PUTS_A_STRING, 3)?;
    let without = linked(alloc, &PUTS_A_STRING, 0)?;
    for verb in ["plain", "run"] {
        let told = told_by(alloc, verb, &with)?;
        assert!(rt; is_told(&told, 0, b"hi\n", b""), "{verb}");
        let told = told_by(alloc, verb, &without)?;
        assert!(rt;
            is_told(&told, 126, b"", b"spechint: trap LoadOut at 0x100f0\n"),
            "{verb}"
        );
    }
    Ok(())
}

#[test]
fn a_program_sees_the_header_of_its_own_file(rt: HostRuntime) -> Result<(), Fail> {
    let alloc = rt.alloc();
    let file = linked(alloc, &PUTS_THE_HEADER, 3)?;
    let header = file.get(..64).unwrap_or(&[]);
    for verb in ["plain", "run"] {
        let told = told_by(alloc, verb, &file)?;
        assert!(rt; is_told(&told, 0, header, b""), "{verb}");
    }
    Ok(())
}

const SHORT: &[u8] = b"spechint: w1: refused: E2 Short\n";

const TABLE: &[u8] = b"spechint: w1: refused: E10 HeaderTable\n";

const SEGMENT: &[u8] = b"spechint: w1: refused: E13 Segment\n";

const SECTIONS: &[u8] = b"spechint: w1: refused: E15 Sections\n";

// The first length, of those from one on and below another, at which a file that is cut off isn't refused so.
fn first_wrong_length(
    alloc: Global,
    file: &[u8],
    from: usize,
    to: usize,
    err: &[u8],
) -> Result<Option<usize>, Fail> {
    for length in from..to {
        let told = told_by(alloc, "plain", file.get(..length).unwrap_or(&[]))?;
        if !is_told(&told, 121, b"", err) {
            return Ok(Some(length));
        }
    }
    Ok(None)
}

#[test]
fn a_file_that_is_cut_off_is_refused(rt: HostRuntime) -> Result<(), Fail> {
    let alloc = rt.alloc();
    let file = image(alloc, &EXITS)?;
    for (from, to, err) in [(0, 64, SHORT), (64, 120, TABLE), (120, 132, SEGMENT)] {
        assert_eq!(rt; first_wrong_length(alloc, &file, from, to, err)?, None);
    }
    Ok(())
}

#[test]
fn a_linked_file_that_is_cut_off_is_refused(rt: HostRuntime) -> Result<(), Fail> {
    let alloc = rt.alloc();
    let file = linked(alloc, &PUTS_A_STRING, 3)?;
    assert_eq!(rt; file.len(), 4_288);
    for (from, to, err) in [
        (0, 64, SHORT),
        (64, 176, TABLE),
        (176, 4_096, SEGMENT),
        (4_096, 4_288, SECTIONS),
    ] {
        assert_eq!(rt; first_wrong_length(alloc, &file, from, to, err)?, None);
    }
    Ok(())
}
