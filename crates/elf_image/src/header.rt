//! The ELF header.

ghost use Rattle.std.specs.Prelude.{◌≡◌, ◌+◌, ◌*◌, ◌≤◌, ◌<◌, length, IfOk, IfErr, Some, None};
ghost use Rattle.elf_image.specs.Header.{HasTable, file_header, has_magic, header_refusal, holds_table};

use crate::fields::{ends_inside, half_at, word_at, xword_at};
use crate::refusal::Refusal;

/// The longest file, in bytes: 64 MiB.
const MAX_FILE_BYTES: usize = 67_108_864;

/// How many bytes the ELF header has.
const HEADER_BYTES: usize = 64;

/// How many bytes an entry of the program header table has.
pub(crate) const PROGRAM_HEADER_BYTES: usize = 56;

/// The most entries of the program header table.
const MAX_PROGRAM_HEADERS: u16 = 64;

const ELFCLASS64: u8 = 2;

const ELFDATA2LSB: u8 = 1;

const EV_CURRENT: u8 = 1;

const ET_EXEC: u16 = 2;

const EM_RISCV: u16 = 243;

/// The flags of RVC, of the floating-point ABI and of RVE are those below this one.
const EF_RISCV_TSO: u32 = 16;

/// The fields of the ELF header that the profile reads (gABI chapter 4, "ELF Header").
#[derive(Clone, Copy, Debug)]
pub(crate) struct FileHeader {
    pub(crate) e_type: u16,
    pub(crate) e_machine: u16,
    pub(crate) e_version: u32,
    pub(crate) e_entry: u64,
    pub(crate) e_phoff: u64,
    pub(crate) e_shoff: u64,
    pub(crate) e_flags: u32,
    pub(crate) e_phentsize: u16,
    pub(crate) e_phnum: u16,
    pub(crate) e_shentsize: u16,
    pub(crate) e_shnum: u16,
}

impl FileHeader {
    /// The fields of this file.
    pub(crate) fn read(bytes: &[u8]) -> FileHeader
        requires { 64 ≤ length bytes.now }
        ensures { result ≡ file_header bytes.now }
    {
        FileHeader {
            e_type: half_at(bytes, 16),
            e_machine: half_at(bytes, 18),
            e_version: word_at(bytes, 20),
            e_entry: xword_at(bytes, 24),
            e_phoff: xword_at(bytes, 32),
            e_shoff: xword_at(bytes, 40),
            e_flags: word_at(bytes, 48),
            e_phentsize: half_at(bytes, 54),
            e_phnum: half_at(bytes, 56),
            e_shentsize: half_at(bytes, 58),
            e_shnum: half_at(bytes, 60),
        }
    }
}

/// Whether a file begins with the ELF magic number.
fn has_magic(bytes: &[u8]) -> bool
    requires { 4 ≤ length bytes.now }
    ensures { result ≡ has_magic bytes.now }
{
    bytes[0] == 0x7F && bytes[1] == b'E' && bytes[2] == b'L' && bytes[3] == b'F'
}

/// Whether the program header table has 1 to 64 entries of 56 bytes and ends inside a file of so
/// many bytes.
fn holds_table(header: &FileHeader, file_length: usize) -> bool
    ensures { result ≡ holds_table header.now file_length }
{
    usize::from(header.e_phentsize) == PROGRAM_HEADER_BYTES
        && 1 <= header.e_phnum
        && header.e_phnum <= MAX_PROGRAM_HEADERS
        && ends_inside(
            header.e_phoff,
            PROGRAM_HEADER_BYTES,
            header.e_phnum,
            file_length,
        )
}

/// The ELF header, or the first reason to refuse that it and the place of the program header
/// table give.
pub(crate) fn read_header(bytes: &[u8]) -> Result<FileHeader, Refusal>
    ensures header { IfOk result (λ header. header ≡ file_header bytes.now) }
    ensures table { IfOk result (λ _. HasTable bytes.now) }
    ensures passed { IfOk result (λ _. header_refusal bytes.now ≡ None) }
    ensures refused { IfErr result (λ refusal. header_refusal bytes.now ≡ Some refusal) }
{
    if bytes.len() > MAX_FILE_BYTES {
        return Err(Refusal::TooLong);
    }
    if bytes.len() < HEADER_BYTES {
        return Err(Refusal::Short);
    }
    let header = FileHeader::read(bytes);
    if !has_magic(bytes) {
        Err(Refusal::Magic)
    } else if bytes[4] != ELFCLASS64 {
        Err(Refusal::Class)
    } else if bytes[5] != ELFDATA2LSB {
        Err(Refusal::ByteOrder)
    } else if bytes[6] != EV_CURRENT || header.e_version != u32::from(EV_CURRENT) {
        Err(Refusal::Version)
    } else if header.e_type != ET_EXEC {
        Err(Refusal::Kind)
    } else if header.e_machine != EM_RISCV {
        Err(Refusal::Machine)
    } else if header.e_flags % EF_RISCV_TSO != 0 {
        Err(Refusal::Flags)
    } else if !holds_table(&header, bytes.len()) {
        Err(Refusal::HeaderTable)
    } else {
        Ok(header)
    }
}
