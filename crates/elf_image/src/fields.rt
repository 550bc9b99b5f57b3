//! Numbers in a file, of which the lowest byte comes first.

ghost use Rattle.std.specs.Prelude.{◌≡◌, ◌+◌, ◌*◌, ◌/◌, ◌%◌, ◌^◌, ◌==◌, ◌≤◌, ◌<◌, length, nat_le};
ghost use Rattle.elf_image.specs.Fields.{half_at, word_at, xword_at, has_bit};

use byteorder::{ByteOrder, LittleEndian};

/// The number of 2 bytes at an offset.
#[tactic(auto, using(crate::proofs::FieldLemmas::reads_at))]
pub(crate) fn half_at(bytes: &[u8], offset: usize) -> u16
    requires { offset + 2 ≤ length bytes.now }
    ensures { result ≡ half_at offset bytes.now }
{
    LittleEndian::read_u16(&bytes[offset..])
}

/// The number of 4 bytes at an offset.
#[tactic(auto, using(crate::proofs::FieldLemmas::reads_at))]
pub(crate) fn word_at(bytes: &[u8], offset: usize) -> u32
    requires { offset + 4 ≤ length bytes.now }
    ensures { result ≡ word_at offset bytes.now }
{
    LittleEndian::read_u32(&bytes[offset..])
}

/// The number of 8 bytes at an offset.
#[tactic(auto, using(crate::proofs::FieldLemmas::reads_at))]
pub(crate) fn xword_at(bytes: &[u8], offset: usize) -> u64
    requires { offset + 8 ≤ length bytes.now }
    ensures { result ≡ xword_at offset bytes.now }
{
    LittleEndian::read_u64(&bytes[offset..])
}

/// Whether the bit with this number is set.
pub(crate) fn has_bit(flags: u64, bit: u32) -> bool
    requires { bit < 64 }
    ensures { result ≡ has_bit bit flags }
{
    (flags >> bit) & 1 == 1
}

/// Whether a table of so many entries of so many bytes at an offset ends inside a file of so many
/// bytes.
pub(crate) fn ends_inside(offset: u64, entry_bytes: usize, entries: u16, file_length: usize) -> bool
    requires { entry_bytes ≤ 64 }
    ensures { result ≡ nat_le (offset + entry_bytes * entries) file_length }
{
    let end = u128::from(offset) + (entry_bytes * usize::from(entries)) as u128;
    end <= file_length as u128
}
