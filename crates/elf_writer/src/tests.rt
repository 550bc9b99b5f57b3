//! Files of a text of three words, `addi x10,x0,7`, `addi x17,x0,93`, `ecall`, whose code is zeros.

ghost use Rattle.std.specs.Prelude.{◌≡◌, length, IfOk};
ghost use Rattle.elf_writer.specs.RewrittenFile.{IsCodeOf, IsRewritable};
ghost use Rattle.elf_writer.specs.Writing.{listed};

use crate::{Buffer, Parts, Written, length, patch_word, write, write_from};
use elf_image::{read_as, text};
use spec_base::{HELPER_WORDS, Layout, NoMemory, STUB_WORDS, Version};
use std::alloc::Global;
use std::test::Fail;
use world_io::{BufSink, MemSink, Sink};

/// The original: header, one entry, and the words at 120.
const ORIGINAL: [u8; 132] = [
    0x7F, b'E', b'L', b'F', 2, 1, 1, 0, 0, 0, 0, 0, 0, 0, 0, 0, // e_ident
    2, 0, 0xF3, 0, 1, 0, 0, 0, 0x78, 0, 1, 0, 0, 0, 0, 0, // e_entry 0x10078
    0x40, 0, 0, 0, 0, 0, 0, 0, 0, 0, 0, 0, 0, 0, 0, 0, // e_phoff 64
    0, 0, 0, 0, 0x40, 0, 0x38, 0, 1, 0, 0, 0, 0, 0, 0, 0, // e_phnum 1
    1, 0, 0, 0, 5, 0, 0, 0, 0x78, 0, 0, 0, 0, 0, 0, 0, // p_offset 120
    0x78, 0, 1, 0, 0, 0, 0, 0, 0x78, 0, 1, 0, 0, 0, 0, 0, // p_vaddr 0x10078
    0x0C, 0, 0, 0, 0, 0, 0, 0, 0x0C, 0, 0, 0, 0, 0, 0, 0, // both sizes 12
    0, 0x10, 0, 0, 0, 0, 0, 0, // p_align 4096
    0x13, 0x05, 0x70, 0, 0x93, 0x08, 0xD0, 0x05, 0x73, 0, 0, 0, // the text
];

/// The header and the record's entry of the rewritten file.
const FRONT: [u8; 120] = [
    0x7F, b'E', b'L', b'F', 2, 1, 1, 0, 0, 0, 0, 0, 0, 0, 0, 0, // e_ident
    2, 0, 0xF3, 0, 1, 0, 0, 0, 0x78, 0, 1, 0, 0, 0, 0, 0, // e_entry 0x10078
    0x40, 0, 0, 0, 0, 0, 0, 0, 0, 0, 0, 0, 0, 0, 0, 0, // e_phoff 64
    0, 0, 0, 0, 0x40, 0, 0x38, 0, 9, 0, 0, 0, 0, 0, 0, 0, // e_phnum 9
    0x31, 0x48, 0x53, 0x60, 4, 0, 0, 0, 0x38, 2, 0, 0, 0, 0, 0, 0, // p_offset 568
    0, 0, 0, 0, 0, 0, 0, 0, 0, 0, 0, 0, 0, 0, 0, 0, // p_vaddr 0
    0x28, 0, 0, 0, 0, 0, 0, 0, 0x28, 0, 0, 0, 0, 0, 0, 0, // both sizes 40
    8, 0, 0, 0, 0, 0, 0, 0, // p_align 8
];

/// The record.
const RECORD: [u8; 40] = [
    b'S', b'P', b'E', b'C', b'H', b'I', b'N', b'T', 2, 0, 0, 0, 0, 0, 0, 0, // version 2
    0x78, 0, 1, 0, 0, 0, 0, 0, 0x84, 0, 1, 0, 0, 0, 0, 0, // text from 0x10078 to 0x10084
    0, 0x10, 0, 0, 0, 0, 0, 0, // 4,096 regions
];

/// The text, in which the call is a gate.
const PATCHED: [u8; 12] = [0x13, 0x05, 0x70, 0, 0x93, 0x08, 0xD0, 0x05, 0x0B, 0, 0, 0];

/// So many zeros.
fn zeros(alloc: Global, count: usize) -> Result<Vec<u32>, NoMemory>
    ensures { IfOk result (λ words. length words.items ≡ count) }
{
    Ok(vec![in alloc; 0; count]?)
}

/// The parts of a file, with zeros for the code of the shadow.
fn parts_of(alloc: Global, bytes: &[u8], version: Version) -> Result<Parts, Fail>
    ensures rewritable { IfOk result (λ parts. IsRewritable bytes.now parts.image parts.layout) }
    ensures code { IfOk result (λ parts. IsCodeOf parts.layout (listed parts)) }
{
    let image = read_as(alloc, bytes, version)?;
    let layout = Layout {
        text_start: image.text_start,
        text_end: image.text_end,
        regions: 4096,
        version,
    };
    let count = ((image.text_end - image.text_start) / 4) as usize;
    let mut words = text(alloc, bytes, &image)?;
    if words.len() != count {
        return Err("a word for each 4 bytes")?;
    }
    for word in words.iter_mut() {
        *word = patch_word(*word);
    }
    Ok(Parts {
        image,
        layout,
        text: words,
        shadow: zeros(alloc, 16 * (count + 1))?,
        helpers: zeros(alloc, HELPER_WORDS)?,
        stub: zeros(alloc, STUB_WORDS)?,
    })
}

/// Writes the file of these bytes.
fn written<O: Sink>(
    alloc: Global,
    bytes: &[u8],
    version: Version,
    sink: &mut O,
) -> Result<Written, Fail> {
    let parts = parts_of(alloc, bytes, version)?;
    Ok(write(bytes, &parts, sink))
}

/// Writes it through a buffer.
fn written_from<O: Sink>(alloc: Global, bytes: &[u8], sink: &mut O) -> Result<Written, Fail> {
    let parts = parts_of(alloc, bytes, Version::Two)?;
    let mut buffer = Buffer::new(alloc)?;
    Ok(write_from(
        bytes,
        &parts.image,
        &parts.layout,
        &parts,
        &mut buffer,
        sink,
    ))
}

/// Writes the file of the original.
fn original_written<O: Sink>(
    alloc: Global,
    version: Version,
    sink: &mut O,
) -> Result<Written, Fail> {
    written(alloc, &ORIGINAL, version, sink)
}

/// Writes it through a buffer.
fn original_written_from<O: Sink>(alloc: Global, sink: &mut O) -> Result<Written, Fail> {
    written_from(alloc, &ORIGINAL, sink)
}

/// The length of the file of these bytes.
fn length_for(alloc: Global, bytes: &[u8]) -> Result<u64, Fail> {
    Ok(length(&parts_of(alloc, bytes, Version::Two)?))
}

fn has_front(file: &[u8]) -> bool {
    file.starts_with(&FRONT)
}

fn has_record(file: &[u8]) -> bool {
    file.get(568..608) == Some(&RECORD[..])
}

fn has_text(file: &[u8]) -> bool {
    file.get(4216..4228) == Some(&PATCHED[..])
}

/// Whether each byte from one place up to another is zero.
fn is_zero(bytes: &[u8], from: usize, to: usize) -> bool {
    match bytes.get(from..to) {
        Some(part) => part.iter().all(|byte| *byte == 0),
        None => false,
    }
}

/// Header, table, record and text stand at their places, and zeros everywhere else.
#[test]
fn writes_each_part(rt: HostRuntime) -> Result<(), Fail> {
    let mut sink = BufSink::new(rt.alloc(), 16_668)?;
    let done = original_written(rt.alloc(), Version::Two, &mut sink)?;
    assert_eq!(rt; (done, sink.bytes().len()), (Written::Done(16_668), 16_668));
    let file = sink.bytes();
    assert!(rt; has_front(file) && has_record(file) && has_text(file));
    assert!(rt; is_zero(file, 608, 4216) && is_zero(file, 4228, 16_668));
    Ok(())
}

#[test]
fn tells_the_length(rt: HostRuntime) -> Result<(), Fail> {
    assert_eq!(rt; length_for(rt.alloc(), &ORIGINAL)?, 16_668);
    Ok(())
}

/// A place of two files, with the byte that each has there.
type Place = (usize, u8, u8);

/// The places where two files differ.
fn differing(alloc: Global, one: &[u8], two: &[u8]) -> Result<Vec<Place>, NoMemory> {
    let mut places = Vec::new(alloc);
    for (place, (old, new)) in one.iter().zip(two).enumerate() {
        if old != new {
            places.push((place, *old, *new))?;
        }
    }
    Ok(places)
}

/// The files of the two versions differ in the size of the region table and in the number of the
/// version.
#[test]
fn versions_differ(rt: HostRuntime) -> Result<(), Fail> {
    let mut one = BufSink::new(rt.alloc(), 16_668)?;
    let mut two = BufSink::new(rt.alloc(), 16_668)?;
    original_written(rt.alloc(), Version::One, &mut one)?;
    original_written(rt.alloc(), Version::Two, &mut two)?;
    let places = differing(rt.alloc(), one.bytes(), two.bytes())?;
    assert!(rt; places.as_slice() == [(442, 0x40, 0), (443, 0, 1), (576, 1, 2)].as_slice());
    Ok(())
}

/// A sink whose room ends takes the front of the file.
#[test]
fn stops_where_the_sink_is_full(rt: HostRuntime) -> Result<(), Fail> {
    let alloc = rt.alloc();
    let mut small = MemSink::new(alloc, 64, Vec::new(alloc), Vec::new(alloc))?;
    let stopped = original_written(alloc, Version::Two, &mut small)?;
    assert_eq!(rt; stopped, Written::SinkFault);
    assert!(rt; small.bytes() == &FRONT[..64]);
    Ok(())
}

/// A sink whose second put fails has what the first one took.
#[test]
fn stops_where_a_put_fails(rt: HostRuntime) -> Result<(), Fail> {
    let alloc = rt.alloc();
    let fails = vec![in alloc; 2; 1]?;
    let most = vec![in alloc; 1000; 1]?;
    let mut failing = MemSink::new(alloc, 20_000, fails, most)?;
    let stopped = original_written_from(alloc, &mut failing)?;
    assert_eq!(rt;
        (stopped, failing.bytes().len()),
        (Written::SinkFault, 1000)
    );
    assert!(rt; has_record(failing.bytes()));
    Ok(())
}

/// A sink that takes one byte at a time takes the whole file.
#[test]
fn goes_on_where_a_put_falls_short(rt: HostRuntime) -> Result<(), Fail> {
    let alloc = rt.alloc();
    let most = vec![in alloc; 1; 16_668]?;
    let mut slow = MemSink::new(alloc, 16_668, Vec::new(alloc), most)?;
    let done = original_written_from(alloc, &mut slow)?;
    assert_eq!(rt; done, Written::Done(16_668));
    let mut quick = BufSink::new(alloc, 16_668)?;
    original_written(alloc, Version::Two, &mut quick)?;
    assert!(rt; slow.bytes() == quick.bytes());
    Ok(())
}

/// Makes 12 and so many the two sizes of the original's segment.
fn lengthen(file: &mut Vec<u8>, count: u32) {
    for (i, byte) in (12 + u64::from(count)).to_le_bytes().iter().enumerate() {
        for place in [96, 104] {
            if let Some(old) = file.get_mut(place + i) {
                *old = *byte;
            }
        }
    }
}

/// An original with the text of [`ORIGINAL`] and so many bytes behind it, each of them 7.
fn long_original(alloc: Global, count: u32) -> Result<Vec<u8>, Fail> {
    let mut file = ORIGINAL.to_vec(alloc)?;
    lengthen(&mut file, count);
    file.resize(132 + count as usize, 7)?;
    Ok(file)
}

/// A segment that is longer than the buffer keeps its bytes, but for the text's.
#[test]
fn writes_more_than_a_buffer(rt: HostRuntime) -> Result<(), Fail> {
    let original = long_original(rt.alloc(), 200_000)?;
    let end = length_for(rt.alloc(), &original)?;
    let mut sink = BufSink::new(rt.alloc(), 16_000_000)?;
    let done = written_from(rt.alloc(), &original, &mut sink)?;
    assert_eq!(rt;
        (done, sink.bytes().len() as u64),
        (Written::Done(end), end)
    );
    let file = sink.bytes();
    assert!(rt; file.get(4216..4220) == original.get(120..124));
    assert!(rt; file.get(204_216..204_228) == original.get(200_120..200_132));
    Ok(())
}

/// It is the same file that is written with no buffer.
#[test]
fn a_buffer_changes_nothing(rt: HostRuntime) -> Result<(), Fail> {
    let original = long_original(rt.alloc(), 200_000)?;
    let mut sink = BufSink::new(rt.alloc(), 16_000_000)?;
    written_from(rt.alloc(), &original, &mut sink)?;
    let mut again = BufSink::new(rt.alloc(), 16_000_000)?;
    written(rt.alloc(), &original, Version::Two, &mut again)?;
    assert!(rt; again.bytes() == sink.bytes());
    Ok(())
}
