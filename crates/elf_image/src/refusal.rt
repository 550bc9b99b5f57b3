//! The reasons to refuse a file.

ghost use Rattle.std.specs.Prelude.{◌≡◌};
ghost use Rattle.elf_image.specs.Refusals.{refusal_name, refusal_number};

/// Why a file isn't an executable of the profile. Of the reasons that hold, the first in this
/// order is told.
#[derive(Clone, Copy, Debug, PartialEq, Eq)]
pub enum Refusal {
    /// The file has more than 64 MiB.
    TooLong,
    /// The file has no room for an ELF header.
    Short,
    /// It doesn't begin with the ELF magic number.
    Magic,
    /// It isn't an ELF64 file.
    Class,
    /// It isn't little-endian.
    ByteOrder,
    /// It has an unknown version of ELF.
    Version,
    /// It isn't an executable file of the kind ET_EXEC.
    Kind,
    /// It isn't for RISC-V.
    Machine,
    /// It uses compressed instructions, floating-point registers for arguments, or RV64E.
    Flags,
    /// The program header table has entries of another size, none, more than 64, or ends past the
    /// end of the file.
    HeaderTable,
    /// It is linked dynamically.
    Dynamic,
    /// It was rewritten already.
    Already,
    /// A segment's file part is longer than the segment or not in the file, the segment lies
    /// outside the range of segments, or it starts before the end of one that precedes it.
    Segment,
    /// None of the segments that have a file part is executable, or more than one is.
    NoText,
    /// The section header table has entries of another size, or ends past the end of the file.
    Sections,
    /// The text is empty, isn't made of aligned words, isn't inside the executable segment's file
    /// part, or has more than 1 MiB.
    Text,
    /// The entry isn't an aligned address of the text.
    Entry,
}

impl Refusal {
    /// Its place in the order, from 1 to 17.
    pub fn number(self) -> u8
        ensures { result ≡ refusal_number self }
    {
        match self {
            Refusal::TooLong => 1,
            Refusal::Short => 2,
            Refusal::Magic => 3,
            Refusal::Class => 4,
            Refusal::ByteOrder => 5,
            Refusal::Version => 6,
            Refusal::Kind => 7,
            Refusal::Machine => 8,
            Refusal::Flags => 9,
            Refusal::HeaderTable => 10,
            Refusal::Dynamic => 11,
            Refusal::Already => 12,
            Refusal::Segment => 13,
            Refusal::NoText => 14,
            Refusal::Sections => 15,
            Refusal::Text => 16,
            Refusal::Entry => 17,
        }
    }

    /// Its name.
    pub fn name(self) -> &'static str
        ensures { result.now ≡ refusal_name self }
    {
        match self {
            Refusal::TooLong => "TooLong",
            Refusal::Short => "Short",
            Refusal::Magic => "Magic",
            Refusal::Class => "Class",
            Refusal::ByteOrder => "ByteOrder",
            Refusal::Version => "Version",
            Refusal::Kind => "Kind",
            Refusal::Machine => "Machine",
            Refusal::Flags => "Flags",
            Refusal::HeaderTable => "HeaderTable",
            Refusal::Dynamic => "Dynamic",
            Refusal::Already => "Already",
            Refusal::Segment => "Segment",
            Refusal::NoText => "NoText",
            Refusal::Sections => "Sections",
            Refusal::Text => "Text",
            Refusal::Entry => "Entry",
        }
    }
}
