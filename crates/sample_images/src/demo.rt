//! The program of the command `demo`, and the file that it reads.

ghost use Rattle.std.specs.Prelude.{◌≡◌, ◌≤◌, ◌++◌, IfOk, OnOk, map, replicate};
ghost use Rattle.rv_decode.specs.Encoding.{word_of};
ghost use Rattle.sample_images.specs.Demos.{data_bytes, demo_image, demo_words};

use crate::executable::two_segments;
use spec_base::NoMemory;
use std::alloc::Global;

/// How many records the program of the command `demo` reads.
pub const DEMO_RECORDS: u16 = 40;

// Words 1 to 7 of the program, up to the count of its records.
const OPENING: [u32; 7] = [
    0x0020_0437, // lui x8, 0x200
    0x0004_0593, // addi x11, x8, 0
    0x0000_0613, // addi x12, x0, 0
    0x0380_0893, // addi x17, x0, 56
    0x0000_0073, // ecall
    0x0005_0493, // addi x9, x10, 0
    0x0000_0913, // addi x18, x0, 0
];

// From the word behind the count to the end of the loop, which begins with the second word.
const READING: [u32; 15] = [
    0x0000_1A37, // lui x20, 1
    0x0004_8513, // addi x10, x9, 0
    0x0009_0593, // addi x11, x18, 0
    0x0000_0613, // addi x12, x0, 0
    0x03E0_0893, // addi x17, x0, 62
    0x0000_0073, // ecall
    0x0004_8513, // addi x10, x9, 0
    0x0020_15B7, // lui x11, 0x201
    0x0400_0613, // addi x12, x0, 64
    0x03F0_0893, // addi x17, x0, 63
    0x0000_0073, // ecall
    0x1134_2023, // sw x19, 256(x8)
    0x0149_0933, // add x18, x18, x20
    0xFFF9_8993, // addi x19, x19, -1
    0xFC09_96E3, // bne x19, x0, -52
];

// addi x5, x5, 1
const COUNTING: u32 = 0x0012_8293;

// Puts `done` and a newline, and exits.
const ENDING: [u32; 8] = [
    0x0010_0513, // addi x10, x0, 1
    0x0084_0593, // addi x11, x8, 8
    0x0050_0613, // addi x12, x0, 5
    0x0400_0893, // addi x17, x0, 64
    0x0000_0073, // ecall
    0x0000_0513, // addi x10, x0, 0
    0x05D0_0893, // addi x17, x0, 93
    0x0000_0073, // ecall
];

/// The words of a program that opens `data`, and for each of at most 2,047 records of 4,096 bytes seeks to it, reads
/// 64 bytes into 0x201000 and stores how many are left; then makes so many instructions that only count; then puts
/// `done` and a newline, and exits with 0. It completes 17 instructions, 14 for each record, and those that count.
pub fn demo_words(alloc: Global, fillers: u32, records: u16) -> Result<Vec<u32>, NoMemory>
    requires { records ≤ 2047 }
    ensures { IfOk result (λ v. v.items ≡ demo_words fillers records) }
{
    let mut words = Vec::from_array(alloc, OPENING)?;
    words.push(0x0000_0993 + ((records as u32) << 20))?;
    words.extend_from_slice(&READING)?;
    words.resize(words.len() + fillers as usize, COUNTING)?;
    words.extend_from_slice(&ENDING)?;
    Ok(words)
}

/// The executable of that program, with so many instructions that only count and 40 records.
pub fn demo_image(alloc: Global, fillers: u32) -> Result<Vec<u8>, NoMemory>
    requires { fillers ≤ 1_000_000 }
    ensures { IfOk result (λ v. v.items ≡ demo_image fillers) }
{
    two_segments(alloc, &demo_words(alloc, fillers, DEMO_RECORDS)?)
}

/// So many bytes of the file `data` from its start.
pub fn data_file(alloc: Global, count: usize) -> Result<Vec<u8>, NoMemory>
    requires { count ≤ 16_777_216 }
    ensures { IfOk result (λ v. v.items ≡ data_bytes 0 count) }
{
    let mut bytes = Vec::new(alloc);
    for i in 0..count {
        bytes.push(((31 * (i / 4096) + i) % 256) as u8)?;
    }
    Ok(bytes)
}
