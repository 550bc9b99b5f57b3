//! A program of three words, rewritten and opened; and each damage of its file.

use crate::{OpenFault, Opened, open};
use elf_image::Part;
use hart_mem::Width;
use rewriter::{Rewritten, rewrite_to};
use spec_base::{Reg, Version, View};
use std::alloc::Global;
use std::test::Fail;
use world_io::BufSink;

/// A header and the entry of one segment at 0x10078, whose 12 bytes follow: `addi x10,x0,7`,
/// `addi x17,x0,93`, `ecall`.
const PROGRAM: [u8; 132] = [
    0x7F, b'E', b'L', b'F', 2, 1, 1, 0, 0, 0, 0, 0, 0, 0, 0, 0, // e_ident
    2, 0, 0xF3, 0, 1, 0, 0, 0, 0x78, 0, 1, 0, 0, 0, 0, 0, // e_entry 0x10078
    0x40, 0, 0, 0, 0, 0, 0, 0, 0, 0, 0, 0, 0, 0, 0, 0, // e_phoff 64
    0, 0, 0, 0, 0x40, 0, 0x38, 0, 1, 0, 0, 0, 0, 0, 0, 0, // e_phnum 1
    1, 0, 0, 0, 5, 0, 0, 0, 0x78, 0, 0, 0, 0, 0, 0, 0, // p_offset 120
    0x78, 0, 1, 0, 0, 0, 0, 0, 0x78, 0, 1, 0, 0, 0, 0, 0, // p_vaddr 0x10078
    12, 0, 0, 0, 0, 0, 0, 0, 12, 0, 0, 0, 0, 0, 0, 0, // both sizes
    0, 0x10, 0, 0, 0, 0, 0, 0, // p_align 4096
    0x13, 0x05, 0x70, 0, 0x93, 0x08, 0xD0, 0x05, 0x73, 0, 0, 0, // the text
];

/// Its rewritten file, of 16,668 bytes.
fn file_of(alloc: Global, version: Version) -> Result<Vec<u8>, Fail> {
    let mut sink = BufSink::new(alloc, 24_000)?;
    match rewrite_to(alloc, &PROGRAM, 4096, version, &mut sink) {
        Rewritten::Done(_) => Ok(sink.bytes().to_vec(alloc)?),
        _ => Err("not rewritten")?,
    }
}

/// The file opened with no arguments.
fn opened(alloc: Global, version: Version) -> Result<Opened, Fail> {
    match open(alloc, &file_of(alloc, version)?, &[]) {
        Ok(opened) => Ok(opened),
        Err(_) => Err("not opened")?,
    }
}

/// Whether a word of a view's code is the one at a place of the file.
fn is_in_file(opened: &Opened, file: &[u8], view: View, pc: u64, place: usize) -> bool {
    match (
        opened.mem.fetch(view, pc),
        file.get(place..place.saturating_add(4)),
    ) {
        (Some(word), Some(bytes)) => word.to_le_bytes().as_slice() == bytes,
        _ => false,
    }
}

/// The code of each view is what the file has: the patched text, the shadow text, the helpers and
/// the stub.
#[test]
fn each_view_has_its_code(rt: HostRuntime) -> Result<(), Fail> {
    let alloc = rt.alloc();
    for version in [Version::One, Version::Two] {
        let file = file_of(alloc, version)?;
        let opened = opened(alloc, version)?;
        for (view, pc, place) in [
            (View::Program, 0x1_0078, 4216),
            (View::Program, 0x1_0080, 4224),
            (View::Shadow, 0x4000_0000, 8192),
            (View::Shadow, 0x4000_0084, 8324),
            (View::Shadow, 0x4110_0000, 12_288),
            (View::Shadow, 0x4110_0464, 13_412),
            (View::Stub, 0x4180_0000, 16_384),
            (View::Stub, 0x4180_0118, 16_664),
        ] {
            assert!(rt; is_in_file(&opened, &file, view, pc, place), "at {place}");
        }
        assert_eq!(rt; opened.layout.regions, 4096);
    }
    Ok(())
}

/// The own hart stands at the entry, with a stack for no arguments.
#[test]
fn starts_at_the_entry(rt: HostRuntime) -> Result<(), Fail> {
    let alloc = rt.alloc();
    for (version, stack) in [(Version::One, 0x0FFF_FFD0), (Version::Two, 0x3FFF_FFD0)] {
        let opened = opened(alloc, version)?;
        assert_eq!(rt; opened.hart.pc(), 0x1_0078);
        assert_eq!(rt; opened.hart.view(), View::Program);
        assert_eq!(rt; opened.hart.reg(Reg::from_low_bits(2)), stack);
    }
    Ok(())
}

/// An argument stands where the program finds it.
#[test]
fn has_its_argument(rt: HostRuntime) -> Result<(), Fail> {
    let alloc = rt.alloc();
    let file = file_of(alloc, Version::Two)?;
    let name = String::from_str(alloc, "ab")?;
    if 100 < name.as_bytes().len() {
        return Err("too long")?;
    }
    match open(alloc, &file, &[name]) {
        Ok(opened) => {
            let stack = opened.hart.reg(Reg::from_low_bits(2));
            assert_eq!(rt; stack, 0x3FFF_FFC0);
            assert_eq!(rt; opened.mem.load(View::Program, stack, Width::Eight), Ok(1));
            assert_eq!(rt;
                opened.mem.load(View::Program, 0x3FFF_FFFD, Width::One),
                Ok(97)
            );
        }
        Err(_) => Err("not opened")?,
    }
    Ok(())
}

/// The part that is told of a file with another byte at a place, or of its first bytes alone.
fn damage(alloc: Global, file: &[u8]) -> Result<Option<Part>, Fail> {
    match open(alloc, file, &[]) {
        Ok(_) => Ok(None),
        Err(OpenFault::Damaged(part)) => Ok(Some(part)),
        Err(OpenFault::NoMemory) => Err("no memory")?,
    }
}

#[test]
fn tells_the_first_damaged_part(rt: HostRuntime) -> Result<(), Fail> {
    let alloc = rt.alloc();
    for (place, byte, part) in [
        (568usize, 0u8, Part::Record),
        (24, 0x79, Part::Image),
        (16, 3, Part::Header),
        (700, 1, Part::Loaded),
        (5000, 1, Part::Shadow),
        (12_288, 1, Part::Helpers),
        (16_384, 1, Part::Stub),
    ] {
        let mut file = file_of(alloc, Version::Two)?;
        if let Some(old) = file.get_mut(place) {
            *old = byte;
        }
        assert_eq!(rt; damage(alloc, &file)?, Some(part));
    }
    let file = file_of(alloc, Version::Two)?;
    let short = file.get(..16_667).unwrap_or(&[]);
    assert_eq!(rt; damage(alloc, short)?, Some(Part::Length));
    assert_eq!(rt; damage(alloc, &PROGRAM)?, Some(Part::Record));
    assert_eq!(rt; damage(alloc, &[])?, Some(Part::Record));
    Ok(())
}
