//! Loading an image of two segments, its text and data behind it, with some arguments.

ghost use Rattle.std.specs.Prelude.{◌≡◌, ◌≤◌, ◌+◌, true, length, map, string_bytes, IfOk};
ghost use Rattle.std.specs.List.{sum_by};

use crate::loading::{Process, load};
use crate::start::argument_bytes;
use elf_image::read;
use hart_mem::Width;
use rv_model::Bytes;
use spec_base::{NoMemory, Reg, Version, View};
use std::alloc::Global;
use std::test::Fail;

const HEADER: [u8; 64] = [
    0x7F, 0x45, 0x4C, 0x46, 2, 1, 1, 0, 0, 0, 0, 0, 0, 0, 0, 0, // ident
    2, 0, 243, 0, 1, 0, 0, 0, 0xB0, 0, 1, 0, 0, 0, 0, 0, // type, machine, version, entry
    64, 0, 0, 0, 0, 0, 0, 0, 0, 0, 0, 0, 0, 0, 0, 0, // phoff, shoff
    0, 0, 0, 0, 64, 0, 56, 0, 2, 0, 0, 0, 0, 0, 0, 0, // flags and the rest
];

// A table's entry: its flags, where its bytes stand in the file, its address, and its sizes.
fn push_entry(bytes: &mut Vec<u8>, flags: u64, fields: [u64; 4]) -> Result<(), Fail> {
    let [offset, address, length, size] = fields;
    for field in [
        flags << 32 | 1,
        offset,
        address,
        address,
        length,
        size,
        4096,
    ] {
        bytes.extend_from_slice(&field.to_le_bytes())?;
    }
    Ok(())
}

// The text is one word at 0x100B0, and the data 3 bytes at 0x20000, of 10.
fn image(alloc: Global) -> Result<Vec<u8>, Fail> {
    let mut bytes = HEADER.to_vec(alloc)?;
    push_entry(&mut bytes, 5, [0xB0, 0x1_00B0, 4, 4])?;
    push_entry(&mut bytes, 6, [0xB4, 0x2_0000, 3, 10])?;
    bytes.extend_from_slice(&[0x73, 0, 0, 0, 7, 8, 9])?;
    Ok(bytes)
}

// Whether the arguments are within the limit of bytes.
fn fit(alloc: Global, arguments: &[String]) -> Result<bool, NoMemory>
    ensures { IfOk result (λ fits. fits ≡ true → sum_by (λ word. length word + 1) (map string_bytes arguments.now) ≤ 65_536) }
{
    let bytes = argument_bytes(alloc, arguments)?;
    Ok(bytes.len() <= 65_536)
}

fn arguments_of(alloc: Global, words: &[&str]) -> Result<Vec<String>, Fail> {
    let mut arguments = Vec::new(alloc);
    for word in words {
        arguments.push(String::from_str(alloc, word)?)?;
    }
    Ok(arguments)
}

// The program of the image with these words as its arguments.
fn process(alloc: Global, words: &[&str]) -> Result<Process, Fail> {
    let bytes = image(alloc)?;
    let Ok(image) = read(alloc, &bytes) else {
        return Err("refused".into());
    };
    let arguments = arguments_of(alloc, words)?;
    if arguments.len() > 64 || !fit(alloc, &arguments)? {
        return Err("too much".into());
    }
    Ok(load(alloc, &bytes, &image, Version::Two, &arguments)?)
}

#[test]
fn a_program_starts_with_its_data_and_its_argument(rt: HostRuntime) -> Result<(), Fail> {
    let process = process(rt.alloc(), &["ab"])?;
    assert_eq!(rt; process.hart.pc(), 0x1_00B0);
    assert_eq!(rt; process.hart.reg(Reg::from_low_bits(2)), 0x3FFF_FFC0);
    assert_eq!(rt; process.mem.fetch(View::Plain, 0x1_00B0), Some(0x73));
    let rows = [
        (0x1_00B0u64, None),
        (0x2_0000, Some(7u8)),
        (0x2_0002, Some(9)),
        (0x2_0003, Some(0)),
        (0x3FFF_FFC0, Some(1)),
        (0x3FFF_FFC8, Some(0xFD)),
        (0x3FFF_FFFD, Some(b'a')),
        (0x3FFF_FFFF, Some(0)),
        (0x4000_0000, None),
    ];
    for (address, byte) in rows {
        assert_eq!(rt; process.mem.byte(address), byte);
    }
    Ok(())
}

// Whether the words of 64 bits from x2 on are these.
fn stack_is(process: &Process, words: &[u64]) -> bool {
    let mut at = process.hart.reg(Reg::from_low_bits(2));
    for word in words {
        if process.mem.load(View::Plain, at, Width::Eight) != Ok(*word) {
            return false;
        }
        at = at.wrapping_add(8);
    }
    true
}

// The middle one of three arguments is empty.
#[test]
fn each_argument_has_its_address(rt: HostRuntime) -> Result<(), Fail> {
    let process = process(rt.alloc(), &["ab", "", "xyz"])?;
    let words = [3, 0x3FFF_FFF8, 0x3FFF_FFFB, 0x3FFF_FFFC, 0, 0, 0, 0];
    assert_eq!(rt; process.hart.reg(Reg::from_low_bits(2)), 0x3FFF_FFB0);
    assert!(rt; stack_is(&process, &words));
    assert_eq!(rt;
        process.mem.load(View::Plain, 0x3FFF_FFF8, Width::Eight),
        Ok(u64::from_le_bytes(*b"ab\0\0xyz\0"))
    );
    Ok(())
}

#[test]
fn sixty_four_arguments(rt: HostRuntime) -> Result<(), Fail> {
    let alloc = rt.alloc();
    let process = process(alloc, &["c"; 64])?;
    let mut words = vec![in alloc; 64]?;
    for i in 0..64u64 {
        words.push(0x3FFF_FF80 + 2 * i)?;
    }
    words.extend_from_slice(&[0; 4])?;
    assert_eq!(rt; process.hart.reg(Reg::from_low_bits(2)), 0x3FFF_FD50);
    assert!(rt; stack_is(&process, &words));
    assert_eq!(rt;
        process.mem.load(View::Plain, 0x3FFF_FFFE, Width::Two),
        Ok(b'c' as u64)
    );
    Ok(())
}

#[test]
fn no_arguments(rt: HostRuntime) -> Result<(), Fail> {
    let process = process(rt.alloc(), &[])?;
    assert_eq!(rt; process.hart.reg(Reg::from_low_bits(2)), 0x3FFF_FFD0);
    assert!(rt; stack_is(&process, &[0; 6]));
    Ok(())
}
