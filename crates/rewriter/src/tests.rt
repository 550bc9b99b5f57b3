//! Programs and the files that they are rewritten to.

use crate::{Rewritten, rewrite, rewrite_as, rewrite_to};
use byteorder::{ByteOrder, LittleEndian};
use elf_image::{ReadFault, Refusal};
use elf_writer::{Written, write};
use spec_base::{MAX_REGIONS, Version};
use std::alloc::Global;
use std::test::Fail;
use world_io::{BufSink, MemSink, Sink};

/// A header and the entry of one segment at 0x10078, whose bytes follow. Its sizes are zero yet.
const FRONT: [u8; 120] = [
    0x7F, b'E', b'L', b'F', 2, 1, 1, 0, 0, 0, 0, 0, 0, 0, 0, 0, // e_ident
    2, 0, 0xF3, 0, 1, 0, 0, 0, 0x78, 0, 1, 0, 0, 0, 0, 0, // e_entry 0x10078
    0x40, 0, 0, 0, 0, 0, 0, 0, 0, 0, 0, 0, 0, 0, 0, 0, // e_phoff 64
    0, 0, 0, 0, 0x40, 0, 0x38, 0, 1, 0, 0, 0, 0, 0, 0, 0, // e_phnum 1
    1, 0, 0, 0, 5, 0, 0, 0, 0x78, 0, 0, 0, 0, 0, 0, 0, // p_offset 120
    0x78, 0, 1, 0, 0, 0, 0, 0, 0x78, 0, 1, 0, 0, 0, 0, 0, // p_vaddr 0x10078
    0, 0, 0, 0, 0, 0, 0, 0, 0, 0, 0, 0, 0, 0, 0, 0, // both sizes
    0, 0x10, 0, 0, 0, 0, 0, 0, // p_align 4096
];

/// Exits with 7: `addi x10,x0,7`, `addi x17,x0,93`, `ecall`.
const EXITS: [u32; 3] = [0x0070_0513, 0x05D0_0893, 0x0000_0073];

/// How many bytes the rewritten file of a short program has.
const FILE_BYTES: usize = 16_668;

/// The program of these words.
fn program(alloc: Global, words: &[u32]) -> Result<Vec<u8>, Fail> {
    let mut file = Vec::new(alloc);
    file.extend_from_slice(&FRONT)?;
    for word in words {
        file.extend_from_slice(&word.to_le_bytes())?;
    }
    let count = (words.len() as u64).wrapping_mul(4);
    for place in [96usize, 104] {
        for (i, byte) in count.to_le_bytes().iter().enumerate() {
            if let Some(old) = file.get_mut(place + i) {
                *old = *byte;
            }
        }
    }
    Ok(file)
}

/// Rewrites a file to a sink.
fn straight<O: Sink>(
    alloc: Global,
    bytes: &[u8],
    regions: u32,
    version: Version,
    sink: &mut O,
) -> Result<Rewritten, Fail> {
    if regions < 1 || MAX_REGIONS < regions {
        return Err("1 to 65,536 regions")?;
    }
    Ok(rewrite_to(alloc, bytes, regions, version, sink))
}

/// Rewrites it to parts, and writes these.
fn by_parts<O: Sink>(
    alloc: Global,
    bytes: &[u8],
    regions: u32,
    version: Version,
    sink: &mut O,
) -> Result<Written, Fail> {
    if regions < 1 || MAX_REGIONS < regions {
        return Err("1 to 65,536 regions")?;
    }
    let parts = rewrite_as(alloc, bytes, regions, version)?;
    Ok(write(bytes, &parts, sink))
}

/// The file that the words of a program are rewritten to.
fn file_of(alloc: Global, words: &[u32], regions: u32, version: Version) -> Result<Vec<u8>, Fail> {
    let original = program(alloc, words)?;
    let mut sink = BufSink::new(alloc, 100_000)?;
    straight(alloc, &original, regions, version, &mut sink)?;
    Ok(sink.bytes().to_vec(alloc)?)
}

/// So many words from a place on.
fn words_at(alloc: Global, file: &[u8], place: usize, count: usize) -> Result<Vec<u32>, Fail> {
    let mut words = Vec::new(alloc);
    for i in 0..count {
        if let Some(rest) = file.get(place.wrapping_add(i.wrapping_mul(4))..) {
            if 4 <= rest.len() {
                words.push(LittleEndian::read_u32(rest))?;
            }
        }
    }
    Ok(words)
}

/// These words, and zeros up to 16.
fn padded(alloc: Global, words: &[u32]) -> Result<Vec<u32>, Fail> {
    let mut block = words.to_vec(alloc)?;
    block.resize(16, 0)?;
    Ok(block)
}

/// The text is patched at its place, and each of its words has its block.
#[test]
fn rewrites_a_program(rt: HostRuntime) -> Result<(), Fail> {
    let alloc = rt.alloc();
    let file = file_of(alloc, &EXITS, 4096, Version::Two)?;
    assert_eq!(rt; file.len(), FILE_BYTES);
    let text = words_at(alloc, &file, 4216, 3)?;
    assert_eq!(rt;
        text.as_slice(),
        [0x0070_0513, 0x05D0_0893, 0x0000_000B].as_slice()
    );
    let rows: [(usize, &[u32]); 3] = [
        (8192, &[0xFF80_3F83, 0x0070_0513, 0x03C0_006F]),
        (
            8320,
            &[
                0xFF80_3F83,
                0xFFF0_3C23,
                0x4110_0FB7,
                0x334F_8FE7,
                0xFF00_3F03,
                0xFF80_3F83,
                0x0000_600B,
                0x0280_006F,
            ],
        ),
        (8384, &[0xFF80_3F83, 0x0000_710B]),
    ];
    for (place, words) in rows {
        let block = words_at(alloc, &file, place, 16)?;
        let expected = padded(alloc, words)?;
        assert_eq!(rt; block.as_slice(), expected.as_slice(), "at {place}");
    }
    Ok(())
}

/// The files of the two versions differ in the size of the region table, in the number of the
/// version, and in the bound that each helper of an access compares with.
#[test]
fn versions_differ(rt: HostRuntime) -> Result<(), Fail> {
    let alloc = rt.alloc();
    let one = file_of(alloc, &EXITS, 4096, Version::One)?;
    let two = file_of(alloc, &EXITS, 4096, Version::Two)?;
    assert_eq!(rt; one.len(), FILE_BYTES);
    let mut places = Vec::new(alloc);
    for (place, (old, new)) in one.iter().zip(two.iter()).enumerate() {
        if old != new {
            places.push(place)?;
        }
    }
    let expected = [
        442, 443, 576, 12_319, 12_383, 12_447, 12_511, 12_575, 12_639, 12_703, 12_767,
    ];
    assert_eq!(rt; places.as_slice(), expected.as_slice());
    Ok(())
}

/// Straight to a sink goes the file that the parts are written to, also where it is longer than the
/// buffer.
#[test]
fn agrees_with_the_parts(rt: HostRuntime) -> Result<(), Fail> {
    let alloc = rt.alloc();
    let long = vec![in alloc; 0x0070_0513; 20_000]?;
    let special = [0x0000_0073, 0x0000_100B, 0x0000_0067];
    for (words, bytes) in [
        (&EXITS[..], 16_668),
        (&special[..], 16_668),
        (long.as_slice(), 1_372_444),
    ] {
        let original = program(alloc, words)?;
        let mut first = BufSink::new(alloc, 2_000_000)?;
        let mut second = BufSink::new(alloc, 2_000_000)?;
        let done = straight(alloc, &original, 7, Version::One, &mut first)?;
        assert_eq!(rt; done, Rewritten::Done(bytes));
        let done = by_parts(alloc, &original, 7, Version::One, &mut second)?;
        assert_eq!(rt; done, Written::Done(bytes));
        assert_eq!(rt; first.bytes(), second.bytes());
    }
    Ok(())
}

/// A sink whose second put fails has taken the front of the file, and one that takes a byte at a
/// time takes the whole file.
#[test]
fn goes_as_far_as_the_sink(rt: HostRuntime) -> Result<(), Fail> {
    let alloc = rt.alloc();
    let original = program(alloc, &EXITS)?;
    let file = file_of(alloc, &EXITS, 4096, Version::Two)?;
    let fails = Vec::from_array(alloc, [2])?;
    let most = Vec::from_array(alloc, [1000])?;
    let mut failing = MemSink::new(alloc, 20_000, fails, most)?;
    let stopped = straight(alloc, &original, 4096, Version::Two, &mut failing)?;
    assert_eq!(rt; stopped, Rewritten::SinkFault);
    assert_eq!(rt; Some(failing.bytes()), file.get(..1000));
    let most = vec![in alloc; 1; 16_668]?;
    let mut slow = MemSink::new(alloc, FILE_BYTES, Vec::new(alloc), most)?;
    let done = straight(alloc, &original, 4096, Version::Two, &mut slow)?;
    assert_eq!(rt; done, Rewritten::Done(16_668));
    assert_eq!(rt; slow.bytes(), file.as_slice());
    Ok(())
}

/// A word of the opcode custom-0 becomes 0, and a call a gate; other words stay.
#[test]
fn patches_the_text(rt: HostRuntime) -> Result<(), Fail> {
    let alloc = rt.alloc();
    let words = [0x0000_0073, 0x0000_100B, 0xFFFF_FF8B, 0x0010_0073];
    let file = file_of(alloc, &words, 4096, Version::Two)?;
    let text = words_at(alloc, &file, 4216, 4)?;
    assert_eq!(rt;
        text.as_slice(),
        [0x0000_000B, 0, 0, 0x0010_0073].as_slice()
    );
    Ok(())
}

/// The record tells how many regions there may be, from 1 to 65,536.
#[test]
fn takes_one_region_and_the_most(rt: HostRuntime) -> Result<(), Fail> {
    let alloc = rt.alloc();
    for regions in [1, 65_536] {
        let file = file_of(alloc, &EXITS, regions, Version::Two)?;
        assert_eq!(rt; file.len(), FILE_BYTES);
        let told = words_at(alloc, &file, 600, 2)?;
        assert_eq!(rt; told.as_slice(), [regions, 0].as_slice());
    }
    Ok(())
}

/// The reason to refuse a file, where one is told.
fn refusal(alloc: Global, file: &[u8]) -> Option<Refusal> {
    match rewrite(alloc, file, 4096) {
        Err(ReadFault::Refused(refusal)) => Some(refusal),
        _ => None,
    }
}

/// A rewritten file isn't rewritten again, and nothing is put for it.
#[test]
fn refuses_what_was_rewritten(rt: HostRuntime) -> Result<(), Fail> {
    let alloc = rt.alloc();
    let file = file_of(alloc, &EXITS, 4096, Version::Two)?;
    let mut sink = BufSink::new(alloc, 20_000)?;
    let answer = straight(alloc, &file, 4096, Version::Two, &mut sink)?;
    assert_eq!(rt; answer, Rewritten::Refused(Refusal::Already));
    assert!(rt; sink.bytes().is_empty());
    assert_eq!(rt; refusal(alloc, &file), Some(Refusal::Already));
    assert_eq!(rt; refusal(alloc, &[]), Some(Refusal::Short));
    Ok(())
}
