//! The ELF header, and an entry of the program header table (gABI chapters 4 and 5).

ghost use Rattle.std.specs.Prelude.{◌≡◌, ◌+◌, ◌++◌, ◌≤◌, [], length};
ghost use Rattle.elf_writer.specs.Headers.{e_ident, half, word, xword, header_bytes, entry_bytes};
ghost use Rattle.elf_writer.specs.FileParts.{file_header, record_entry, part_entry, entry_count, record_start};

use crate::fields::Fields;
use crate::part::Part;
use elf_image::Image;

/// How many bytes the ELF header has.
const HEADER_BYTES: u16 = 64;

/// How many bytes an entry of the program header table has.
const PROGRAM_HEADER_BYTES: u16 = 56;

/// Bytes of the record, which stands behind the table.
pub(crate) const RECORD_BYTES: u64 = 40;

/// The magic number, ELFCLASS64, ELFDATA2LSB, EV_CURRENT and ELFOSABI_NONE.
const IDENT: [u8; 16] = [0x7F, b'E', b'L', b'F', 2, 1, 1, 0, 0, 0, 0, 0, 0, 0, 0, 0];

const ET_EXEC: u16 = 2;

const EM_RISCV: u16 = 243;

const EV_CURRENT: u32 = 1;

const PT_LOAD: u32 = 1;

/// This project's own: the record of a rewritten file.
const PT_RECORD: u32 = 0x6053_4831;

const PF_R: u32 = 4;

/// Parts are loaded by pages of so many bytes.
const PAGE_BYTES: u64 = 4096;

/// The fields of the ELF header, but for e_ident.
#[derive(Clone, Copy, Debug)]
pub(crate) struct FileHeader {
    e_type: u16,
    e_machine: u16,
    e_version: u32,
    e_entry: u64,
    e_phoff: u64,
    e_shoff: u64,
    e_flags: u32,
    e_ehsize: u16,
    e_phentsize: u16,
    e_phnum: u16,
    e_shentsize: u16,
    e_shnum: u16,
    e_shstrndx: u16,
}

/// The fields of an entry of the program header table.
#[derive(Clone, Copy, Debug)]
pub(crate) struct ProgramHeader {
    p_type: u32,
    p_flags: u32,
    p_offset: u64,
    p_vaddr: u64,
    p_paddr: u64,
    p_filesz: u64,
    p_memsz: u64,
    p_align: u64,
}

/// How many entries the table of the rewritten file has.
fn entry_count(image: &Image) -> u16
    requires { length image.now.segments ≤ 64 }
    ensures { result ≡ entry_count image.now }
{
    image.segments.items.len() as u16 + 8
}

/// Where the record of the rewritten file stands.
pub(crate) fn record_start(image: &Image) -> u64
    requires { length image.now.segments ≤ 64 }
    ensures { result ≡ record_start image.now }
{
    u64::from(HEADER_BYTES) + u64::from(PROGRAM_HEADER_BYTES) * u64::from(entry_count(image))
}

impl FileHeader {
    /// The header of the rewritten file.
    pub(crate) fn of(image: &Image) -> FileHeader
        requires { length image.now.segments ≤ 64 }
        ensures { result ≡ file_header image.now }
    {
        FileHeader {
            e_type: ET_EXEC,
            e_machine: EM_RISCV,
            e_version: EV_CURRENT,
            e_entry: image.entry,
            e_phoff: u64::from(HEADER_BYTES),
            e_shoff: 0,
            e_flags: image.flags,
            e_ehsize: HEADER_BYTES,
            e_phentsize: PROGRAM_HEADER_BYTES,
            e_phnum: entry_count(image),
            e_shentsize: 0,
            e_shnum: 0,
            e_shstrndx: 0,
        }
    }

    /// Its bytes.
    pub(crate) fn fields(&self) -> Fields
        ensures { result ≡ header_bytes self.now }
    {
        Fields::new()
            .bytes(&IDENT)
            .half(self.e_type)
            .half(self.e_machine)
            .word(self.e_version)
            .xword(self.e_entry)
            .xword(self.e_phoff)
            .xword(self.e_shoff)
            .word(self.e_flags)
            .half(self.e_ehsize)
            .half(self.e_phentsize)
            .half(self.e_phnum)
            .half(self.e_shentsize)
            .half(self.e_shnum)
            .half(self.e_shstrndx)
    }
}

impl ProgramHeader {
    /// The entry of the record, which is read and not loaded.
    pub(crate) fn of_record(image: &Image) -> ProgramHeader
        requires { length image.now.segments ≤ 64 }
        ensures { result ≡ record_entry image.now }
    {
        ProgramHeader {
            p_type: PT_RECORD,
            p_flags: PF_R,
            p_offset: record_start(image),
            p_vaddr: 0,
            p_paddr: 0,
            p_filesz: RECORD_BYTES,
            p_memsz: RECORD_BYTES,
            p_align: 8,
        }
    }

    /// The entry of a part, where the file goes on at a cursor.
    pub(crate) fn of_part(part: &Part, cursor: u64) -> ProgramHeader
        requires { cursor ≤ 0x1_0000_0000_0000 }
        ensures { result ≡ part_entry cursor part.now }
    {
        ProgramHeader {
            p_type: PT_LOAD,
            p_flags: part.p_flags,
            p_offset: part.offset(cursor),
            p_vaddr: part.p_vaddr,
            p_paddr: part.p_vaddr,
            p_filesz: part.p_filesz,
            p_memsz: part.p_memsz,
            p_align: PAGE_BYTES,
        }
    }

    /// Its bytes.
    pub(crate) fn fields(&self) -> Fields
        ensures { result ≡ entry_bytes self.now }
    {
        Fields::new()
            .word(self.p_type)
            .word(self.p_flags)
            .xword(self.p_offset)
            .xword(self.p_vaddr)
            .xword(self.p_paddr)
            .xword(self.p_filesz)
            .xword(self.p_memsz)
            .xword(self.p_align)
    }
}
