//! Executables of one and of two segments (ELF gABI chapters 4 and 5).

ghost use Rattle.std.specs.Prelude.{◌≡◌, ◌*◌, ◌++◌, ◌≤◌, length, IfOk, OnOk};
ghost use Rattle.sample_images.specs.Executables.{header, entry, text_bytes, one_segment, two_segments};

use spec_base::NoMemory;
use std::alloc::Global;

/// The magic number, ELFCLASS64, ELFDATA2LSB, EV_CURRENT and ELFOSABI_NONE.
const IDENT: [u8; 16] = [0x7F, b'E', b'L', b'F', 2, 1, 1, 0, 0, 0, 0, 0, 0, 0, 0, 0];

/// The data that the second segment begins with: a name, and a line to put.
const STRINGS: [u8; 16] = *b"data\0\0\0\0done\n\0\0\0";

// The header: ET_EXEC, EM_RISCV, EV_CURRENT, no section, and so many entries behind it.
fn header(alloc: Global, entry: u64, entries: u16) -> Result<Vec<u8>, NoMemory>
    ensures { IfOk result (λ v. v.items ≡ header entry entries) }
{
    let mut bytes = Vec::from_array(alloc, IDENT)?;
    bytes.extend_from_slice(&2u16.to_le_bytes())?;
    bytes.extend_from_slice(&243u16.to_le_bytes())?;
    bytes.extend_from_slice(&1u32.to_le_bytes())?;
    bytes.extend_from_slice(&entry.to_le_bytes())?;
    bytes.extend_from_slice(&64u64.to_le_bytes())?;
    bytes.extend_from_slice(&[0; 12])?;
    bytes.extend_from_slice(&64u16.to_le_bytes())?;
    bytes.extend_from_slice(&56u16.to_le_bytes())?;
    bytes.extend_from_slice(&entries.to_le_bytes())?;
    bytes.extend_from_slice(&[0; 6])?;
    Ok(bytes)
}

// The entry of a segment (PT_LOAD).
#[derive(Clone, Copy)]
struct Segment {
    flags: u32,
    offset: u64,
    address: u64,
    filesz: u64,
    memsz: u64,
    align: u64,
}

fn entry(alloc: Global, segment: &Segment) -> Result<Vec<u8>, NoMemory>
    ensures { IfOk result (λ v. v.items ≡ entry segment.now.flags segment.now.offset segment.now.address segment.now.filesz segment.now.memsz segment.now.align) }
{
    let mut bytes = Vec::from_array(alloc, 1u32.to_le_bytes())?;
    bytes.extend_from_slice(&segment.flags.to_le_bytes())?;
    bytes.extend_from_slice(&segment.offset.to_le_bytes())?;
    bytes.extend_from_slice(&segment.address.to_le_bytes())?;
    bytes.extend_from_slice(&segment.address.to_le_bytes())?;
    bytes.extend_from_slice(&segment.filesz.to_le_bytes())?;
    bytes.extend_from_slice(&segment.memsz.to_le_bytes())?;
    bytes.extend_from_slice(&segment.align.to_le_bytes())?;
    Ok(bytes)
}

// Appends the words of a text.
fn push_words(bytes: &mut Vec<u8>, words: &[u32]) -> Result<(), NoMemory>
    ensures { OnOk result (bytes.new.items ≡ bytes.old.items ++ text_bytes words.now) }
{
    for word in words {
        bytes.extend_from_slice(&word.to_le_bytes())?;
    }
    Ok(())
}

/// The executable of a text of at most 2^24 words, which stands at 0x10078 in its one segment.
pub fn one_segment(alloc: Global, words: &[u32]) -> Result<Vec<u8>, NoMemory>
    requires { length words.now ≤ 16_777_216 }
    ensures { IfOk result (λ v. v.items ≡ one_segment words.now) }
{
    let size = words.len() as u64 * 4;
    let mut bytes = header(alloc, 0x1_0078, 1)?;
    bytes.extend_from_slice(&entry(
        alloc,
        &Segment {
            flags: 5,
            offset: 120,
            address: 0x1_0078,
            filesz: size,
            memsz: size,
            align: 0x1000,
        },
    )?)?;
    push_words(&mut bytes, words)?;
    Ok(bytes)
}

/// The executable of a text of at most 2^24 words, which stands at 0x100B0, with a second segment of 0x3000
/// bytes of data at 0x200000, which begin with `data` and, at 8, with `done` and a newline.
pub fn two_segments(alloc: Global, words: &[u32]) -> Result<Vec<u8>, NoMemory>
    requires { length words.now ≤ 16_777_216 }
    ensures { IfOk result (λ v. v.items ≡ two_segments words.now) }
{
    let size = words.len() as u64 * 4;
    let mut bytes = header(alloc, 0x1_00B0, 2)?;
    bytes.extend_from_slice(&entry(
        alloc,
        &Segment {
            flags: 5,
            offset: 176,
            address: 0x1_00B0,
            filesz: size,
            memsz: size,
            align: 0x1000,
        },
    )?)?;
    bytes.extend_from_slice(&entry(
        alloc,
        &Segment {
            flags: 6,
            offset: 176 + size,
            address: 0x20_0000,
            filesz: 16,
            memsz: 0x3000,
            align: 4,
        },
    )?)?;
    push_words(&mut bytes, words)?;
    bytes.extend_from_slice(&STRINGS)?;
    Ok(bytes)
}
