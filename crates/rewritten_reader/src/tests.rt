//! Changes of a rewritten file, and the part that each damages.

use crate::read_back;
use elf_image::{Part, RecoverFault};
use rewriter::{Rewritten, rewrite_to};
use spec_base::Version;
use std::alloc::Global;
use std::test::Fail;
use world_io::BufSink;

/// A header and the entry of one segment at 0x10078, whose 12 bytes follow: `addi x10,x0,7`,
/// `addi x17,x0,93`, `ecall`.
const PROGRAM: [u8; 132] = [
    0x7F, b'E', b'L', b'F', 2, 1, 1, 0, 0, 0, 0, 0, 0, 0, 0, 0, // e_ident
    2, 0, 0xF3, 0, 1, 0, 0, 0, 0x78, 0, 1, 0, 0, 0, 0, 0, // e_entry 0x10078
    0x40, 0, 0, 0, 0, 0, 0, 0, 0, 0, 0, 0, 0, 0, 0, 0, // e_phoff 64
    0, 0, 0, 0, 0x40, 0, 0x38, 0, 1, 0, 0, 0, 0, 0, 0, 0, // e_phnum 1
    1, 0, 0, 0, 5, 0, 0, 0, 0x78, 0, 0, 0, 0, 0, 0, 0, // p_offset 120
    0x78, 0, 1, 0, 0, 0, 0, 0, 0x78, 0, 1, 0, 0, 0, 0, 0, // p_vaddr 0x10078
    12, 0, 0, 0, 0, 0, 0, 0, 12, 0, 0, 0, 0, 0, 0, 0, // both sizes
    0, 0x10, 0, 0, 0, 0, 0, 0, // p_align 4096
    0x13, 0x05, 0x70, 0, 0x93, 0x08, 0xD0, 0x05, 0x73, 0, 0, 0, // the text
];

/// The rewritten file of a program.
fn rewritten(alloc: Global, program: &[u8], version: Version) -> Result<Vec<u8>, Fail> {
    let mut sink = BufSink::new(alloc, 24_000)?;
    match rewrite_to(alloc, program, 4096, version, &mut sink) {
        Rewritten::Done(_) => Ok(sink.bytes().to_vec(alloc)?),
        _ => Err("not rewritten")?,
    }
}

/// That of the three words, of 16,668 bytes.
fn file_of(alloc: Global, version: Version) -> Result<Vec<u8>, Fail> {
    rewritten(alloc, &PROGRAM, version)
}

/// The program of the three words with 63 segments more, of 16 zeros each, in pages behind it.
fn with_64_segments(alloc: Global) -> Result<Vec<u8>, Fail> {
    let mut program = Vec::with_capacity(alloc, 4000)?;
    program.extend_from_slice(PROGRAM.get(..120).unwrap_or(&[]))?;
    for i in 0..63u8 {
        let address = [0, i % 16 * 16, 2 + i / 16, 0, 0, 0, 0, 0];
        program.extend_from_slice(&[1, 0, 0, 0, 6, 0, 0, 0, 0, 0, 0, 0, 0, 0, 0, 0])?;
        program.extend_from_slice(&address)?;
        program.extend_from_slice(&address)?;
        program.extend_from_slice(&[0, 0, 0, 0, 0, 0, 0, 0, 16, 0, 0, 0, 0, 0, 0, 0])?;
        program.extend_from_slice(&[0, 16, 0, 0, 0, 0, 0, 0])?;
    }
    program.extend_from_slice(PROGRAM.get(120..).unwrap_or(&[]))?;
    for (place, byte) in [(56, 64), (72, 0x40), (73, 0x0E)] {
        if let Some(old) = program.get_mut(place) {
            *old = byte;
        }
    }
    Ok(program)
}

#[test]
fn takes_64_segments(rt: HostRuntime) -> Result<(), Fail> {
    let alloc = rt.alloc();
    let program = with_64_segments(alloc)?;
    let mut file = rewritten(alloc, &program, Version::Two)?;
    match read_back(alloc, &file) {
        Ok(recovered) => assert_eq!(rt; recovered.image.segments.items.len(), 64),
        Err(_) => Err("damaged")?,
    }
    assert_eq!(rt; damage_at(alloc, &file, &[(4200, 1)])?, Some(Part::Loaded));
    file.push(0)?;
    assert_eq!(rt; damage(alloc, &file)?, Some(Part::Length));
    Ok(())
}

/// The part of a file that is damaged, if one is.
fn damage(alloc: Global, file: &[u8]) -> Result<Option<Part>, Fail> {
    match read_back(alloc, file) {
        Ok(_) => Ok(None),
        Err(RecoverFault::Damaged(part)) => Ok(Some(part)),
        Err(RecoverFault::NoMemory) => Err("no memory")?,
    }
}

/// The same with other bytes at some places.
fn damage_at(alloc: Global, file: &[u8], changes: &[(usize, u8)]) -> Result<Option<Part>, Fail> {
    let mut changed = file.to_vec(alloc)?;
    for (place, byte) in changes {
        if let Some(old) = changed.get_mut(*place) {
            *old = *byte;
        }
    }
    damage(alloc, &changed)
}

#[test]
fn names_the_first_damaged_part(rt: HostRuntime) -> Result<(), Fail> {
    let alloc = rt.alloc();
    for version in [Version::One, Version::Two] {
        let file = file_of(alloc, version)?;
        assert_eq!(rt; damage(alloc, &file)?, None);
        let rows: [(&[(usize, u8)], Option<Part>); 14] = [
            (&[(568, 0)], Some(Part::Record)),
            (&[(24, 0x79)], Some(Part::Image)),
            (&[(24, 0x7C)], None),
            (&[(16, 3)], Some(Part::Header)),
            (&[(700, 1)], Some(Part::Loaded)),
            (&[(4216, 0x0B), (4217, 0x10), (4218, 0)], Some(Part::Loaded)),
            (&[(4217, 6)], Some(Part::Shadow)),
            (&[(5000, 1)], Some(Part::Shadow)),
            (&[(12_288, 1)], Some(Part::Helpers)),
            (&[(12_000, 1)], Some(Part::Helpers)),
            (&[(16_384, 1)], Some(Part::Stub)),
            (&[(96, 41)], Some(Part::Record)),
            (&[(120, 7)], Some(Part::Image)),
            (&[(128, 7)], Some(Part::Header)),
        ];
        for (changes, expected) in rows {
            let found = damage_at(alloc, &file, changes)?;
            assert_eq!(rt; found, expected);
        }
    }
    Ok(())
}

#[test]
fn tells_another_length(rt: HostRuntime) -> Result<(), Fail> {
    let alloc = rt.alloc();
    let mut file = file_of(alloc, Version::Two)?;
    let short = file.get(..16_667).unwrap_or(&[]);
    assert_eq!(rt; damage(alloc, short)?, Some(Part::Length));
    file.push(0)?;
    assert_eq!(rt; damage(alloc, &file)?, Some(Part::Length));
    assert_eq!(rt; damage(alloc, &PROGRAM)?, Some(Part::Record));
    assert_eq!(rt; damage(alloc, &[])?, Some(Part::Record));
    Ok(())
}

/// What was made from a file again is the image with its segment in the rewritten file.
#[test]
fn gives_the_image(rt: HostRuntime) -> Result<(), Fail> {
    let alloc = rt.alloc();
    let file = file_of(alloc, Version::One)?;
    match read_back(alloc, &file) {
        Ok(recovered) => {
            assert_eq!(rt; recovered.image.entry, 0x10078);
            assert_eq!(rt; recovered.image.break_start, 0x10090);
            assert_eq!(rt; recovered.layout.regions, 4096);
            assert_eq!(rt; recovered.layout.version, Version::One);
            for segment in &recovered.image.segments.items {
                assert_eq!(rt; segment.offset, 4216);
            }
        }
        Err(_) => Err("damaged")?,
    }
    Ok(())
}

/// Whether the file is damaged where its first bytes alone are left, for each number of them.
fn are_damaged(alloc: Global, file: &[u8], from: usize, to: usize) -> Result<bool, Fail> {
    for count in from..to {
        if damage(alloc, file.get(..count).unwrap_or(&[]))? == None {
            return Ok(false);
        }
    }
    Ok(true)
}

#[test]
fn is_damaged_wherever_it_ends(rt: HostRuntime) -> Result<(), Fail> {
    let alloc = rt.alloc();
    let file = file_of(alloc, Version::Two)?;
    assert!(rt; are_damaged(alloc, &file, 0, 1200)?);
    assert!(rt; are_damaged(alloc, &file, 16_368, 16_668)?);
    Ok(())
}

/// No single bit of these bytes can be another: the places are spread over the file, and none of them
/// is of the entry or of flags.
#[test]
fn is_damaged_by_one_bit(rt: HostRuntime) -> Result<(), Fail> {
    let alloc = rt.alloc();
    let file = file_of(alloc, Version::Two)?;
    for i in 0..200usize {
        let place = 83 * i;
        let old = file.get(place).copied().unwrap_or(0);
        let found = damage_at(alloc, &file, &[(place, old ^ (1 << (i % 8)))])?;
        assert!(rt; found.is_some());
    }
    Ok(())
}
