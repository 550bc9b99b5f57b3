//! A law of the rewritten file.

ghost use Rattle.elf_writer.specs.Places.{EachStands};

/// What a reader of the rewritten file finds: the header at 0, the table at 64, the record and each
/// part at the p_offset of its entry, with p_filesz bytes.
pub fn each_part_stands_at_its_offset()
    ensures { EachStands }
{}
