//! Files of the shapes that links give, hostile ones, and the reasons to refuse them. The expected
//! answers are by the gABI's tables and the profile's words, and were worked out by hand.

use crate::{Image, ReadFault, Segment, read, read_as, text};
use spec_base::Version;
use std::alloc::{AllocError, Global};
use std::test::Fail;

/// An entry of a program header table: type, flags, offset, address, file size and memory size.
type Entry = (u32, u32, u64, u64, u64, u64);

fn push(file: &mut Vec<u8>, value: u64, width: usize) -> Result<(), AllocError> {
    for (i, byte) in value.to_le_bytes().iter().enumerate() {
        if i < width {
            file.push(*byte)?;
        }
    }
    Ok(())
}

/// An ELF header with these entries behind it, and then words.
fn file_of(
    alloc: Global,
    start: u64,
    entries: &[Entry],
    words: &[u32],
) -> Result<Vec<u8>, AllocError> {
    let mut file = Vec::new(alloc);
    file.extend_from_slice(&[0x7F, b'E', b'L', b'F', 2, 1, 1, 0, 0, 0, 0, 0, 0, 0, 0, 0])?;
    let fields = [
        (2, 2),
        (243, 2),
        (1, 4),
        (start, 8),
        (64, 8),
        (0, 8),
        (0, 4),
        (64, 2),
        (56, 2),
        (entries.len() as u64, 2),
        (0, 2),
        (0, 2),
        (0, 2),
    ];
    for (value, width) in fields {
        push(&mut file, value, width)?;
    }
    for (kind, flags, offset, address, file_bytes, bytes) in entries {
        push(&mut file, u64::from(*kind), 4)?;
        push(&mut file, u64::from(*flags), 4)?;
        for value in [*offset, *address, *address, *file_bytes, *bytes, 0x1000] {
            push(&mut file, value, 8)?;
        }
    }
    for word in words {
        push(&mut file, u64::from(*word), 4)?;
    }
    Ok(file)
}

/// One segment of words at 0x10078.
fn one_segment(alloc: Global, words: &[u32]) -> Result<Vec<u8>, AllocError> {
    let bytes = (words.len() as u64).wrapping_mul(4);
    file_of(
        alloc,
        0x1_0078,
        &[(1, 5, 120, 0x1_0078, bytes, bytes)],
        words,
    )
}

/// Exits with 7: `addi x10,x0,7`, `addi x17,x0,93`, `ecall`.
fn exits(alloc: Global) -> Result<Vec<u8>, AllocError> {
    one_segment(alloc, &[0x0070_0513, 0x05D0_0893, 0x0000_0073])
}

/// A text at 0x100B0 and data at 0x200000.
fn two_segments(alloc: Global) -> Result<Vec<u8>, AllocError> {
    let entries = [
        (1, 5, 176, 0x1_00B0, 12, 12),
        (1, 6, 188, 0x20_0000, 16, 0x3000),
    ];
    let words = [
        0x0070_0513,
        0x05D0_0893,
        0x0000_0073,
        0x6174_6164,
        0,
        0x656E_6F64,
        0x0000_000A,
    ];
    file_of(alloc, 0x1_00B0, &entries, &words)
}

/// The usual shape of a GNU link: attributes, and headers and read-only data in the segment of the
/// code, whose place the sections tell.
fn linked(alloc: Global) -> Result<Vec<u8>, AllocError> {
    let entries = [
        (0x7000_0003, 0, 0, 0, 0, 0),
        (1, 5, 0, 0x1_0000, 0x1000, 0x1000),
    ];
    let mut file = file_of(alloc, 0x1_00E8, &entries, &[])?;
    file.resize(0x1000, 0)?;
    for (flags, address, bytes) in [(0, 0, 0), (6, 0x1_00E8, 0x28), (2, 0x1_0200, 3)] {
        for value in [0, flags, address, 0, bytes, 0, 0, 0] {
            push(&mut file, value, 8)?;
        }
    }
    changed(
        alloc,
        &file,
        &[(40, 0x1000, 8), (58, 64, 2), (60, 3, 2), (0xE8, 0x73, 4)],
    )
}

/// A file with other numbers of so many bytes at some offsets.
fn changed(
    alloc: Global,
    file: &[u8],
    changes: &[(usize, u64, usize)],
) -> Result<Vec<u8>, AllocError> {
    let mut copy = file.to_vec(alloc)?;
    for (offset, value, width) in changes {
        for (i, byte) in value.to_le_bytes().iter().enumerate() {
            if i < *width {
                if let Some(place) = copy.get_mut(offset.wrapping_add(i)) {
                    *place = *byte;
                }
            }
        }
    }
    Ok(copy)
}

fn answer(given: &Result<Image, ReadFault>) -> &'static str {
    match given {
        Ok(_) => "accepted",
        Err(ReadFault::Refused(refusal)) => refusal.name(),
        Err(ReadFault::NoMemory) => "no memory",
    }
}

fn answers(alloc: Global, file: &[u8], want: &str) -> bool {
    answer(&read(alloc, file)) == want
}

/// The first length from one on and below another at which a file's front gives another answer.
fn first_other_length(
    alloc: Global,
    file: &[u8],
    from: usize,
    to: usize,
    want: &str,
) -> Option<usize> {
    for length in from..to {
        if !answers(alloc, file.get(..length).unwrap_or(&[]), want) {
            return Some(length);
        }
    }
    None
}

/// The lengths below which the front of the file that exits gives these answers, in order.
const CUTS_OF_PLAIN: [(usize, &str); 4] = [
    (64, "Short"),
    (120, "HeaderTable"),
    (132, "Segment"),
    (133, "accepted"),
];

/// The same of the linked file.
const CUTS_OF_LINKED: [(usize, &str); 5] = [
    (64, "Short"),
    (176, "HeaderTable"),
    (4096, "Segment"),
    (4288, "Sections"),
    (4289, "accepted"),
];

fn first_wrong_length(alloc: Global, file: &[u8], cuts: &[(usize, &str)]) -> Option<usize> {
    let mut from = 0;
    for (to, want) in cuts {
        let wrong = first_other_length(alloc, file, from, *to, want);
        if wrong.is_some() {
            return wrong;
        }
        from = *to;
    }
    None
}

#[test]
fn refuses_truncated_files(rt: HostRuntime) -> Result<(), Fail> {
    let plain = exits(rt.alloc())?;
    assert_eq!(rt;
        first_wrong_length(rt.alloc(), &plain, &CUTS_OF_PLAIN),
        None
    );
    let linked = linked(rt.alloc())?;
    assert_eq!(rt;
        first_wrong_length(rt.alloc(), &linked, &CUTS_OF_LINKED),
        None
    );
    Ok(())
}

/// A change of a file: an offset, a number and its bytes.
type Change = (usize, u64, usize);

const NONE: Change = (0, 0, 0);

const TOP: u64 = u64::MAX;

/// The row whose changes of a file give another answer.
fn first_wrong_change(
    alloc: Global,
    file: &[u8],
    rows: &[([Change; 2], &str)],
) -> Result<Option<usize>, AllocError> {
    for (i, (changes, want)) in rows.iter().enumerate() {
        if !answers(alloc, &changed(alloc, file, changes)?, want) {
            return Ok(Some(i));
        }
    }
    Ok(None)
}

/// Changes of the file that exits, and the answers.
const REASONS: [([Change; 2], &str); 53] = [
    ([NONE, NONE], "accepted"),
    ([(0, 0x7E, 1), NONE], "Magic"),
    ([(3, 0x47, 1), (4, 1, 1)], "Magic"),
    ([(4, 1, 1), NONE], "Class"),
    ([(5, 2, 1), NONE], "ByteOrder"),
    ([(6, 0, 1), NONE], "Version"),
    ([(20, 2, 4), NONE], "Version"),
    ([(16, 3, 2), NONE], "Kind"),
    ([(16, 3, 2), (64, 3, 4)], "Kind"),
    ([(18, 62, 2), NONE], "Machine"),
    ([(48, 5, 4), NONE], "Flags"),
    ([(48, 1, 4), NONE], "Flags"),
    ([(48, 8, 4), (54, 0, 2)], "Flags"),
    ([(48, 0x10, 4), NONE], "accepted"),
    ([(54, 57, 2), NONE], "HeaderTable"),
    ([(56, 0, 2), NONE], "HeaderTable"),
    ([(56, 65, 2), NONE], "HeaderTable"),
    ([(56, 0xFFFF, 2), NONE], "HeaderTable"),
    ([(32, 77, 8), NONE], "HeaderTable"),
    ([(32, TOP, 8), NONE], "HeaderTable"),
    ([(64, 2, 4), NONE], "Dynamic"),
    ([(64, 3, 4), NONE], "Dynamic"),
    ([(64, 0x6053_4831, 4), NONE], "Already"),
    ([(64, 0, 4), NONE], "NoText"),
    ([(68, 4, 4), NONE], "NoText"),
    ([(96, 0, 8), (104, 0, 8)], "NoText"),
    ([(96, 0, 8), NONE], "NoText"),
    ([(96, 13, 8), NONE], "Segment"),
    ([(96, 13, 8), (104, 13, 8)], "Segment"),
    ([(96, TOP, 8), (104, TOP, 8)], "Segment"),
    ([(104, TOP, 8), NONE], "Segment"),
    ([(72, 121, 8), NONE], "Segment"),
    ([(72, TOP, 8), NONE], "Segment"),
    ([(80, 0xFFC, 8), NONE], "Segment"),
    ([(80, TOP, 8), NONE], "Segment"),
    ([(80, 0x3FEF_FFF8, 8), NONE], "Segment"),
    ([(80, 0x3FEF_FFF4, 8), NONE], "Entry"),
    ([(80, 0x3FEF_FFF4, 8), (24, 0x3FEF_FFF4, 8)], "accepted"),
    ([(80, 0x1000, 8), (24, 0x1008, 8)], "accepted"),
    ([(60, 1, 2), NONE], "Sections"),
    ([(60, 1, 2), (58, 65, 2)], "Sections"),
    ([(60, 3, 2), (58, 64, 2)], "Sections"),
    ([(60, 1, 2), (80, 0x1_007A, 8)], "Sections"),
    ([(60, 1, 2), (58, 64, 2)], "accepted"),
    ([(40, TOP, 8), NONE], "accepted"),
    ([(80, 0x1_007A, 8), NONE], "Text"),
    ([(96, 10, 8), NONE], "Text"),
    ([(96, 2, 8), (24, 0, 8)], "Text"),
    ([(24, 0x1_0074, 8), NONE], "Entry"),
    ([(24, 0x1_007A, 8), NONE], "Entry"),
    ([(24, 0x1_0084, 8), NONE], "Entry"),
    ([(24, TOP, 8), NONE], "Entry"),
    ([(24, 0x1_0080, 8), NONE], "accepted"),
];

#[test]
fn tells_the_first_reason(rt: HostRuntime) -> Result<(), Fail> {
    let file = exits(rt.alloc())?;
    assert_eq!(rt; first_wrong_change(rt.alloc(), &file, &REASONS)?, None);
    Ok(())
}

/// Changes of the linked file, and the answers. The text's section has its flags at 0x1048, its
/// address at 0x1050 and its size at 0x1060.
const OF_SECTIONS: [([Change; 2], &str); 19] = [
    ([NONE, NONE], "accepted"),
    ([(60, 0, 2), NONE], "accepted"),
    ([(60, 0, 2), (40, TOP, 8)], "accepted"),
    ([(40, 0x1001, 8), NONE], "Sections"),
    ([(40, TOP, 8), NONE], "Sections"),
    ([(58, 63, 2), NONE], "Sections"),
    ([(60, 0xFFFF, 2), NONE], "Sections"),
    ([(0x1048, 4, 8), (0x1060, TOP, 8)], "accepted"),
    ([(0x1048, 2, 8), (0x1050, 0, 8)], "accepted"),
    ([(0x1060, 0, 8), NONE], "accepted"),
    ([(0x1060, 0x2A, 8), NONE], "Text"),
    ([(0x1060, 0x1000, 8), NONE], "Text"),
    ([(0x1060, TOP, 8), NONE], "Text"),
    ([(0x1050, 0xFFFC, 8), NONE], "Text"),
    ([(0x1050, 0x1_00EA, 8), NONE], "Text"),
    ([(0x1050, TOP, 8), NONE], "Text"),
    ([(0x1050, 0x1_00EC, 8), NONE], "Entry"),
    // The last section is made text too, so that the text goes on to its end.
    ([(0x1088, 6, 8), NONE], "Text"),
    ([(0x1088, 6, 8), (0x10A0, 4, 8)], "accepted"),
];

#[test]
fn judges_sections(rt: HostRuntime) -> Result<(), Fail> {
    let file = linked(rt.alloc())?;
    assert_eq!(rt; first_wrong_change(rt.alloc(), &file, &OF_SECTIONS)?, None);
    Ok(())
}

const CODE: Entry = (1, 5, 0, 0x1_0000, 4, 16);

const UNREAD: Entry = (7, 7, TOP, TOP, TOP, TOP);

/// The entries of files, and the answers.
const OF_SEGMENTS: [([Entry; 4], &str); 16] = [
    // in order, with a thread-local entry and a stack entry that are passed over
    (
        [UNREAD, CODE, (1, 6, 0, 0x1_0010, 4, 4), UNREAD],
        "accepted",
    ),
    (
        [
            CODE,
            (1, 6, 0, 0x1_0010, 0, 4),
            UNREAD,
            (1, 6, 0, 0x1_0014, 0, 4),
        ],
        "accepted",
    ),
    // an empty segment is passed over, wherever it is
    (
        [CODE, (1, 5, u64::MAX, 0, 0, 0), UNREAD, UNREAD],
        "accepted",
    ),
    ([UNREAD, UNREAD, UNREAD, UNREAD], "NoText"),
    ([CODE, (1, 7, 0, 0x2_0000, 4, 4), UNREAD, UNREAD], "NoText"),
    (
        [CODE, (1, 7, 0, 0x2_0000, 0, 4), UNREAD, UNREAD],
        "accepted",
    ),
    // overlapping the one before, and one further back
    ([CODE, (1, 6, 0, 0x1_000F, 4, 4), UNREAD, UNREAD], "Segment"),
    ([CODE, UNREAD, (1, 6, 0, 0x1_0000, 4, 4), UNREAD], "Segment"),
    (
        [
            CODE,
            (1, 6, 0, 0x3_0000, 4, 4),
            (1, 6, 0, 0x2_0000, 4, 4),
            UNREAD,
        ],
        "Segment",
    ),
    (
        [
            CODE,
            (1, 6, 0, 0x2_0000, 4, 0x100),
            (1, 6, 0, 0x2_0080, 4, 4),
            UNREAD,
        ],
        "Segment",
    ),
    // descending
    ([(1, 6, 0, 0x2_0000, 4, 4), CODE, UNREAD, UNREAD], "Segment"),
    // sums past 2^64
    (
        [CODE, (1, 6, u64::MAX, 0x2_0000, 4, 4), UNREAD, UNREAD],
        "Segment",
    ),
    (
        [CODE, (1, 6, 0, u64::MAX - 3, 4, 8), UNREAD, UNREAD],
        "Segment",
    ),
    (
        [CODE, (1, 6, 0, 0x2_0000, 4, u64::MAX), UNREAD, UNREAD],
        "Segment",
    ),
    (
        [
            CODE,
            (1, 6, 0, 0x2_0000, 4, 4),
            (3, 0, 0, 0, 0, 0),
            (0x6053_4831, 0, 0, 0, 0, 0),
        ],
        "Dynamic",
    ),
    (
        [
            CODE,
            (1, 6, 0, 0, 4, 4),
            UNREAD,
            (0x6053_4831, 0, 0, 0, 0, 0),
        ],
        "Already",
    ),
];

fn first_wrong_table(alloc: Global) -> Result<Option<usize>, AllocError> {
    for (i, (entries, want)) in OF_SEGMENTS.iter().enumerate() {
        if !answers(alloc, &file_of(alloc, 0x1_0000, entries, &[])?, want) {
            return Ok(Some(i));
        }
    }
    Ok(None)
}

/// Whether a file with so many entries, of which the first is code, is answered so.
fn answers_entries(alloc: Global, count: usize, want: &str) -> Result<bool, AllocError> {
    let mut entries = vec![in alloc; CODE; 1]?;
    entries.resize(count, (0, 0, 0, 0, 0, 0))?;
    let file = file_of(alloc, 0x1_0000, &entries, &[])?;
    Ok(answers(alloc, &file, want))
}

#[test]
fn judges_segments(rt: HostRuntime) -> Result<(), Fail> {
    assert_eq!(rt; first_wrong_table(rt.alloc())?, None);
    assert!(rt; answers_entries(rt.alloc(), 64, "accepted")?);
    assert!(rt; answers_entries(rt.alloc(), 65, "HeaderTable")?);
    Ok(())
}

/// Whether the file that exits, moved to 2^28, is answered so in a version.
fn answers_high(alloc: Global, version: Version, want: &str) -> Result<bool, AllocError> {
    let changes = [(24, 0x1000_0078, 8), (80, 0x1000_0078, 8)];
    let high = changed(alloc, &exits(alloc)?, &changes)?;
    Ok(answer(&read_as(alloc, &high, version)) == want)
}

/// Whether a text of so many words is answered so.
fn answers_words(alloc: Global, count: usize, want: &str) -> Result<bool, AllocError> {
    let text = vec![in alloc; 0x0000_0013; count]?;
    Ok(answers(alloc, &one_segment(alloc, &text)?, want))
}

/// Whether a file of so many bytes is answered so.
fn answers_bytes(alloc: Global, length: usize, want: &str) -> Result<bool, AllocError> {
    let mut file = exits(alloc)?;
    file.resize(length, 0)?;
    Ok(answers(alloc, &file, want))
}

#[test]
fn judges_versions_and_sizes(rt: HostRuntime) -> Result<(), Fail> {
    assert!(rt; answers_high(rt.alloc(), Version::Two, "accepted")?);
    assert!(rt; answers_high(rt.alloc(), Version::One, "Segment")?);
    assert!(rt; answers_words(rt.alloc(), 262_144, "accepted")?);
    assert!(rt; answers_words(rt.alloc(), 262_145, "Text")?);
    assert!(rt; answers_bytes(rt.alloc(), 67_108_864, "accepted")?);
    assert!(rt; answers_bytes(rt.alloc(), 67_108_865, "TooLong")?);
    Ok(())
}

/// The value of the byte at an offset for which a file gets an answer that no header gives.
fn first_wrong_byte(alloc: Global, file: &[u8], offset: usize) -> Result<Option<u64>, AllocError> {
    for byte in 0..256 {
        let file = changed(alloc, file, &[(offset, byte, 1)])?;
        let given = answer(&read(alloc, &file));
        if given == "no memory" || given == "Short" || given == "TooLong" {
            return Ok(Some(byte));
        }
    }
    Ok(None)
}

#[test]
fn answers_every_changed_byte(rt: HostRuntime) -> Result<(), Fail> {
    let file = two_segments(rt.alloc())?;
    assert!(rt; answers(rt.alloc(), &file, "accepted"));
    for offset in 0..176 {
        assert_eq!(rt; first_wrong_byte(rt.alloc(), &file, offset)?, None);
    }
    Ok(())
}

/// The words of a file's text, or none where it is refused.
fn words_of(alloc: Global, file: &[u8]) -> Result<Vec<u32>, Fail> {
    match read(alloc, file) {
        Ok(image) => Ok(text(alloc, file, &image)?),
        Err(_) => Ok(Vec::new(alloc)),
    }
}

/// Whether a file has this entry, so many segments, and this text and start of the break.
fn has_image(
    alloc: Global,
    file: &[u8],
    entry: u64,
    segments: usize,
    (start, end, break_start): (u64, u64, u64),
) -> bool {
    match read(alloc, file) {
        Ok(image) => {
            (image.entry, image.segments.items.len()) == (entry, segments)
                && (image.text_start, image.text_end, image.break_start)
                    == (start, end, break_start)
        }
        Err(_) => false,
    }
}

#[test]
fn gives_the_image(rt: HostRuntime) -> Result<(), Fail> {
    let alloc = rt.alloc();
    assert!(rt;
        has_image(
            alloc,
            &exits(alloc)?,
            0x1_0078,
            1,
            (0x1_0078, 0x1_0084, 0x1_0090)
        )
    );
    assert!(rt;
        has_image(
            alloc,
            &two_segments(alloc)?,
            0x1_00B0,
            2,
            (0x1_00B0, 0x1_00BC, 0x20_3000)
        )
    );
    Ok(())
}

#[test]
fn sections_bound_the_text(rt: HostRuntime) -> Result<(), Fail> {
    let linked = linked(rt.alloc())?;
    assert!(rt;
        has_image(
            rt.alloc(),
            &linked,
            0x1_00E8,
            1,
            (0x1_00E8, 0x1_0110, 0x1_1000)
        )
    );
    let bare = changed(rt.alloc(), &linked, &[(60, 0, 2)])?;
    assert!(rt;
        has_image(
            rt.alloc(),
            &bare,
            0x1_00E8,
            1,
            (0x1_0000, 0x1_1000, 0x1_1000)
        )
    );
    Ok(())
}

#[test]
fn gives_flags_and_segments(rt: HostRuntime) -> Result<(), Fail> {
    let flagged = changed(rt.alloc(), &two_segments(rt.alloc())?, &[(48, 0x10, 4)])?;
    let image = read(rt.alloc(), &flagged)?;
    let data = Segment {
        address: 0x20_0000,
        size: 0x3000,
        flags: 6,
        offset: 188,
        length: 16,
    };
    assert_eq!(rt;
        (image.flags, image.segments.items.last().copied()),
        (0x10, Some(data))
    );
    Ok(())
}

#[test]
fn gives_the_words(rt: HostRuntime) -> Result<(), Fail> {
    let words = words_of(rt.alloc(), &exits(rt.alloc())?)?;
    assert!(rt; words.as_slice() == [0x0070_0513, 0x05D0_0893, 0x0000_0073].as_slice());
    let words = words_of(rt.alloc(), &linked(rt.alloc())?)?;
    assert_eq!(rt;
        (words.len(), words.first().copied()),
        (10, Some(0x0000_0073))
    );
    Ok(())
}
