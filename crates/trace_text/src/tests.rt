use crate::{Counts, TraceBody, TraceLine, line, parse_line, report, turns_line, use_line};
use spec_base::{BlockSpot, Name, NoMemory, Note, Park, ReadSpot, ShadowState, Trap};
use std::alloc::Global;
use std::test::Fail;

fn call(number: u64, a0: u64, a1: u64, a2: u64, answer: i64) -> Note {
    Note::Call {
        number,
        a0,
        a1,
        a2,
        answer,
    }
}

fn data() -> Result<Name, Fail> {
    Ok(Name::new(b"data").ok_or("a name")?)
}

fn read(name: Name, offset: u64, count: u64) -> ReadSpot {
    ReadSpot {
        name,
        offset,
        count,
    }
}

fn block(name: Name, block: u64) -> BlockSpot {
    BlockSpot { name, block }
}

fn note_line(own: u64, shadow: u64, note: Note) -> Option<TraceLine> {
    Some(TraceLine {
        own,
        shadow,
        body: TraceBody::Note(note),
    })
}

// Whether a note is printed so, and is read back.
fn is_line(
    alloc: Global,
    (own, shadow): (u64, u64),
    note: &Note,
    text: &[u8],
    bytes: &[u8],
) -> Result<bool, NoMemory> {
    let printed = line(alloc, own, shadow, note, text)?;
    Ok(printed.as_slice() == bytes && parse_line(bytes) == note_line(own, shadow, *note))
}

// The same of a note before the shadow's first move, with no text.
fn is_told(alloc: Global, own: u64, note: &Note, bytes: &[u8]) -> Result<bool, NoMemory> {
    is_line(alloc, (own, 0), note, b"", bytes)
}

// A program that reads a file of 5,000 bytes, with a shadow that never moves.
#[test]
fn worked_trace(rt: HostRuntime) -> Result<(), Fail> {
    let data = data()?;
    assert!(rt;
        is_told(
            rt.alloc(),
            5,
            &call(56, 0, 2097152, 0, 3),
            b"5 0 call 56 0 2097152 0 3\n"
        )?
    );
    assert!(rt;
        is_told(
            rt.alloc(),
            10,
            &Note::Restart(read(data, 0, 4096)),
            b"10 0 restart 64617461 0 4096\n"
        )?
    );
    assert!(rt;
        is_told(
            rt.alloc(),
            10,
            &Note::Stall(block(data, 0)),
            b"10 0 stall 64617461 0\n"
        )?
    );
    assert!(rt;
        is_told(
            rt.alloc(),
            10,
            &Note::Fetch(block(data, 0)),
            b"10 0 fetch 64617461 0\n"
        )?
    );
    assert!(rt;
        is_told(
            rt.alloc(),
            11,
            &call(63, 3, 2101248, 4096, 4096),
            b"11 0 call 63 3 2101248 4096 4096\n"
        )?
    );
    assert!(rt;
        is_told(
            rt.alloc(),
            12,
            &Note::Restart(read(data, 4096, 904)),
            b"12 0 restart 64617461 4096 904\n"
        )?
    );
    assert!(rt;
        is_told(
            rt.alloc(),
            12,
            &Note::Stall(block(data, 1)),
            b"12 0 stall 64617461 1\n"
        )?
    );
    assert!(rt;
        is_told(
            rt.alloc(),
            12,
            &Note::Fetch(block(data, 1)),
            b"12 0 fetch 64617461 1\n"
        )?
    );
    assert!(rt;
        is_told(
            rt.alloc(),
            13,
            &call(63, 3, 2101248, 4096, 904),
            b"13 0 call 63 3 2101248 4096 904\n"
        )?
    );
    assert!(rt;
        is_told(
            rt.alloc(),
            14,
            &Note::Restart(read(data, 5000, 0)),
            b"14 0 restart 64617461 5000 0\n"
        )?
    );
    assert!(rt;
        is_told(
            rt.alloc(),
            15,
            &call(63, 3, 2101248, 4096, 0),
            b"15 0 call 63 3 2101248 4096 0\n"
        )?
    );
    assert!(rt; is_told(rt.alloc(), 17, &Note::Exit(0), b"17 0 exit 0\n")?);
    Ok(())
}

#[test]
fn notes_with_names(rt: HostRuntime) -> Result<(), Fail> {
    let data = data()?;
    assert!(rt;
        is_line(
            rt.alloc(),
            (0, 9),
            &Note::Match(read(data, 72057594037927935, 65536)),
            &[],
            b"0 9 match 64617461 72057594037927935 65536\n"
        )?
    );
    assert!(rt;
        is_line(
            rt.alloc(),
            (0, 9),
            &Note::Hint(read(data, 7, 1)),
            &[],
            b"0 9 hint 64617461 7 1\n"
        )?
    );
    assert!(rt;
        is_line(
            rt.alloc(),
            (0, 9),
            &Note::Fill(read(data, 7, 1)),
            &[],
            b"0 9 fill 64617461 7 1\n"
        )?
    );
    assert!(rt;
        is_line(
            rt.alloc(),
            (0, 9),
            &Note::Drop(block(data, 17592186044415)),
            &[],
            b"0 9 drop 64617461 17592186044415\n"
        )?
    );
    assert!(rt;
        is_line(
            rt.alloc(),
            (0, 9),
            &Note::Lost(block(data, 3)),
            &[],
            b"0 9 lost 64617461 3\n"
        )?
    );
    Ok(())
}

const NOTES: [(Note, &[u8]); 10] = [
    (
        Note::Call {
            number: 64,
            a0: 1,
            a1: u64::MAX,
            a2: 0,
            answer: -1,
        },
        b"0 9 call 64 1 18446744073709551615 0 -1\n",
    ),
    (
        Note::Call {
            number: 57,
            a0: 0,
            a1: 0,
            a2: 0,
            answer: i64::MIN,
        },
        b"0 9 call 57 0 0 0 -9223372036854775808\n",
    ),
    (
        Note::Call {
            number: 57,
            a0: 0,
            a1: 0,
            a2: 0,
            answer: i64::MAX,
        },
        b"0 9 call 57 0 0 0 9223372036854775807\n",
    ),
    (Note::Text { to: 2, count: 4 }, b"0 9 text 2 00ff0a20\n"),
    (Note::Park(Park::LogFull), b"0 9 park LogFull\n"),
    (
        Note::Trap(Trap::Illegal, 0x10078),
        b"0 9 trap Illegal 0x10078\n",
    ),
    (
        Note::Trap(Trap::StoreOut, u64::MAX),
        b"0 9 trap StoreOut 0xffffffffffffffff\n",
    ),
    (Note::Trap(Trap::Break, 0), b"0 9 trap Break 0x0\n"),
    (Note::Exit(255), b"0 9 exit 255\n"),
    (Note::Fault, b"0 9 fault store\n"),
];

// The first note that is printed or read otherwise.
fn first_wrong_note(alloc: Global) -> Result<Option<usize>, NoMemory> {
    for (i, (note, bytes)) in NOTES.iter().enumerate() {
        if !is_line(alloc, (0, 9), note, &[0, 0xff, 10, 32], bytes)? {
            return Ok(Some(i));
        }
    }
    Ok(None)
}

#[test]
fn notes_without_names(rt: HostRuntime) -> Result<(), Fail> {
    assert_eq!(rt; first_wrong_note(rt.alloc())?, None);
    Ok(())
}

// A name of 255 bytes from this one on, and a line with it.
fn long_name(alloc: Global, first: u8) -> Result<(Option<Name>, Vec<u8>), NoMemory> {
    let mut bytes = [0; 255];
    let mut line = b"1 2 stall ".to_vec(alloc)?;
    for i in 0..255u8 {
        let byte = i.wrapping_add(first);
        bytes[i as usize] = byte;
        line.push(b"0123456789abcdef"[byte as usize / 16])?;
        line.push(b"0123456789abcdef"[byte as usize % 16])?;
    }
    line.extend_from_slice(b" 0\n")?;
    Ok((Name::new(&bytes), line))
}

fn has_long_name(alloc: Global, first: u8) -> Result<bool, NoMemory> {
    match long_name(alloc, first)? {
        (Some(name), wanted) => {
            let note = Note::Stall(BlockSpot { name, block: 0 });
            is_line(alloc, (1, 2), &note, b"", &wanted)
        }
        (None, _) => Ok(false),
    }
}

// Two names of 255 bytes hold each byte value.
#[test]
fn long_names(rt: HostRuntime) -> Result<(), Fail> {
    assert!(rt; has_long_name(rt.alloc(), 0)?);
    assert!(rt; has_long_name(rt.alloc(), 1)?);
    Ok(())
}

// Whether a line is read as these counts of instructions and this body.
fn is_said(bytes: &[u8], own: u64, body: TraceBody) -> bool {
    parse_line(bytes)
        == Some(TraceLine {
            own,
            shadow: 0,
            body,
        })
}

#[test]
fn counts_and_uses(rt: HostRuntime) -> Result<(), Fail> {
    let turns = turns_line(rt.alloc(), 1, 0)?;
    assert!(rt; turns.as_slice() == b"1 0 turns\n".as_slice());
    assert!(rt; is_said(&turns, 1, TraceBody::Turns));
    let uses = use_line(rt.alloc(), u64::MAX, 0, u64::MAX)?;
    assert!(rt; uses.as_slice() == b"18446744073709551615 0 use 18446744073709551615\n".as_slice());
    assert!(rt; is_said(&uses, u64::MAX, TraceBody::Use(u64::MAX)));
    Ok(())
}

const REFUSED: [&[u8]; 37] = [
    b"",
    b"\n",
    b"1 0 turns",
    b"1 0 turns\r\n",
    b"1 0 turns\n\n",
    b"1 0 turns \n",
    b" 1 0 turns\n",
    b"1  0 turns\n",
    b"1\t0 turns\n",
    b"1 0\n",
    b"01 0 turns\n",
    b"1 00 turns\n",
    b"+1 0 turns\n",
    b"18446744073709551616 0 turns\n",
    b"1 0 text 1 \n",
    b"1 0 text 0 00\n",
    b"1 0 text 3 00\n",
    b"1 0 text 1 000\n",
    b"1 0 text 1 0A\n",
    b"1 0 hint 6C 0 1\n",
    b"1 0 hint 6c 0 65537\n",
    b"1 0 hint 6c 72057594037927936 1\n",
    b"1 0 hint 6c 0 01\n",
    b"1 0 stall 6c 17592186044416\n",
    b"1 0 exit 256\n",
    b"1 0 trap Illegal 10078\n",
    b"1 0 trap Illegal 0x\n",
    b"1 0 trap Illegal 0x00\n",
    b"1 0 trap Illegal 0xA\n",
    b"1 0 trap Illegal 0x10000000000000000\n",
    b"1 0 call 63 3 2101248 4096 -0\n",
    b"1 0 call 63 3 2101248 4096 9223372036854775808\n",
    b"1 0 call 63 3 2101248 4096 -9223372036854775809\n",
    b"1 0 call 63 3 2101248 4096\n",
    b"1 0 park Never\n",
    b"1 0 fault sink\n",
    b"1 0 halt 1\n",
];

fn first_read() -> Option<usize> {
    for (i, bytes) in REFUSED.iter().enumerate() {
        if parse_line(bytes).is_some() {
            return Some(i);
        }
    }
    None
}

#[test]
fn refused(rt: HostRuntime) {
    assert_eq!(rt; first_read(), None);
}

#[test]
fn reports(rt: HostRuntime) -> Result<(), Fail> {
    let counts = Counts {
        instructions: 3,
        stalls: 0,
        restarts: 0,
        matched: 0,
        hints: 0,
        regions: 0,
        shadow: 0,
        state: ShadowState::Never,
    };
    assert_eq!(rt;
        report(rt.alloc(), &counts)?.as_slice(),
        b"spechint: instructions 3 stalls 0 restarts 0 matched 0 hints 0 regions 0 shadow 0 never\n".as_slice()
    );
    let counts = Counts {
        instructions: 577,
        stalls: 1,
        restarts: 2,
        matched: 39,
        hints: 40,
        regions: 5,
        shadow: u64::MAX,
        state: ShadowState::Parked(Park::Exit),
    };
    assert_eq!(rt;
        report(rt.alloc(), &counts)?.as_slice(),
        b"spechint: instructions 577 stalls 1 restarts 2 matched 39 hints 40 regions 5 shadow 18446744073709551615 parked Exit\n".as_slice()
    );
    Ok(())
}
