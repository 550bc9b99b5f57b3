//! Images of programs.

use sample_images::{demo_image, one_segment, two_segments};
use std::alloc::Global;
use std::test::Fail;

/// Exits with 7.
pub const EXITS: [u32; 3] = [
    0x0070_0513, // addi x10,x0,7
    0x05D0_0893, // addi x17,x0,93
    0x0000_0073, // ecall
];

/// An image whose one segment is its text.
pub fn image(alloc: Global, words: &[u32]) -> Result<Vec<u8>, Fail> {
    if words.len() > 1000 {
        return Err("long".into());
    }
    Ok(one_segment(alloc, words)?)
}

/// An image of a text, and of data at 0x200000 that begin with the name `data` and, at 8, with `done` and a newline.
pub fn image_with_data(alloc: Global, words: &[u32]) -> Result<Vec<u8>, Fail> {
    if words.len() > 1000 {
        return Err("long".into());
    }
    Ok(two_segments(alloc, words)?)
}

// Opens `data`, and reads its first 4,096 bytes.
const READS_A_BLOCK: [u32; 11] = [
    0x0020_0437, // lui x8,0x200
    0x0004_0593, // addi x11,x8,0
    0x0000_0613, // addi x12,x0,0
    0x0380_0893, // addi x17,x0,56
    0x0000_0073, // ecall
    0x0005_0493, // addi x9,x10,0
    0x0004_8513, // addi x10,x9,0
    0x0020_15B7, // lui x11,0x201
    0x0000_1637, // lui x12,1
    0x03F0_0893, // addi x17,x0,63
    0x0000_0073, // ecall
];

/// The image of a program that opens `data`, keeps its descriptor in x9, reads its first 4,096 bytes to 0x201000, where
/// x11 points, and then has these words.
pub fn behind_a_read(alloc: Global, words: &[u32]) -> Result<Vec<u8>, Fail> {
    let mut all = READS_A_BLOCK.to_vec(alloc)?;
    all.extend_from_slice(words)?;
    image_with_data(alloc, &all)
}

/// The program of the command `demo`, with no instruction that only counts: it reads 64 bytes of each of the 40 blocks of
/// the file `data`, and then puts `done` and a newline.
pub fn reads(alloc: Global) -> Result<Vec<u8>, Fail> {
    Ok(demo_image(alloc, 0)?)
}

// The header of a file with two entries of a table behind it, and with sections at 0x1000.
const LINKED: [u8; 64] = [
    0x7F, 0x45, 0x4C, 0x46, 2, 1, 1, 0, 0, 0, 0, 0, 0, 0, 0, 0, // ident
    2, 0, 243, 0, 1, 0, 0, 0, 0xE8, 0, 1, 0, 0, 0, 0, 0, // type, machine, version, entry
    64, 0, 0, 0, 0, 0, 0, 0, 0, 0x10, 0, 0, 0, 0, 0, 0, // phoff, shoff
    0, 0, 0, 0, 64, 0, 56, 0, 2, 0, 64, 0, 3, 0, 0, 0, // flags, sizes and numbers of entries
];

// Appends numbers of 64 bits.
fn push_numbers(bytes: &mut Vec<u8>, numbers: &[u64]) -> Result<(), Fail> {
    for number in numbers {
        bytes.extend_from_slice(&number.to_le_bytes())?;
    }
    Ok(())
}

// The front of a linked file up to its sections: an entry of attributes, and one of a segment with headers, text and
// the string `hi` with a newline.
fn push_segment(bytes: &mut Vec<u8>, words: &[u32]) -> Result<(), Fail> {
    bytes.extend_from_slice(&0x7000_0003u32.to_le_bytes())?;
    bytes.resize(120, 0)?;
    push_numbers(
        bytes,
        &[0x5_0000_0001, 0, 0x1_0000, 0x1_0000, 0x1000, 0x1000, 0x1000],
    )?;
    bytes.resize(0xE8, 0)?;
    for word in words {
        bytes.extend_from_slice(&word.to_le_bytes())?;
    }
    bytes.resize(0x200, 0)?;
    bytes.extend_from_slice(b"hi\n")?;
    bytes.resize(0x1000, 0)?;
    Ok(())
}

/// An image in the shape of a GNU link: attributes, and one segment of headers, a text at 0x100E8 and read-only data at
/// 0x10200, which the sections tell apart. The header counts so many of its three sections.
pub fn linked(alloc: Global, words: &[u32], sections: u8) -> Result<Vec<u8>, Fail> {
    let mut header = LINKED;
    header[60] = sections;
    let mut bytes = header.to_vec(alloc)?;
    push_segment(&mut bytes, words)?;
    let size = words.len() as u64;
    push_numbers(&mut bytes, &[0; 8])?;
    push_numbers(
        &mut bytes,
        &[0, 6, 0x1_00E8, 0, size.wrapping_mul(4), 0, 0, 0],
    )?;
    push_numbers(&mut bytes, &[0, 2, 0x1_0200, 0, 3, 0, 0, 0])?;
    Ok(bytes)
}
