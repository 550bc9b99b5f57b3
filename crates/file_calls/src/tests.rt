//! The table of calls, row by row, with the answers and exit codes of the calls' definition.

ghost use Rattle.std.specs.Prelude.{◌-◌, ◌==◌, ◌||◌, nat_lt, None, slice_get, if◌then◌else◌, ◌≤◌};

use crate::{CallPlan, Files};
use rv_model::Bytes;
use spec_base::Name;
use std::alloc::{AllocError, Global};
use std::process::Abort;
use std::test::Fail;

/// Bytes from an address on, all of them data but for one.
#[derive(Drop)]
struct Stretch {
    start: u64,
    hole: u64,
    bytes: Vec<u8>,
}

impl Bytes for Stretch {
    ghost byte_at = { λ s a. if nat_lt a s.start || a == s.hole then None else slice_get s.bytes.items (a - s.start) };

    fn byte(&self, address: u64) -> Option<u8> {
        if address < self.start || address == self.hole {
            None
        } else {
            self.bytes.get((address - self.start) as usize).copied()
        }
    }
}

const START: u64 = 0x1000;

// So many bytes 1 from START on, with a hole.
fn ones(alloc: Global, len: usize, hole: u64) -> Result<Stretch, AllocError> {
    let bytes = vec![in alloc; 1u8; len]?;
    Ok(Stretch {
        start: START,
        hole,
        bytes,
    })
}

// A call where each file has 1,000 bytes and each put is taken whole: the descriptors after it, and
// its answer.
fn performed<B: Bytes>(files: &Files, number: u64, a: [u64; 3], mem: &B) -> (Files, i64) {
    match files.plan(number, a, mem) {
        CallPlan::Set(after, answer) => (after, answer),
        CallPlan::Open(name) => files.opened(name, 1000),
        CallPlan::Read(spot, _) => (files.after_read(a[0], spot.count), spot.count as i64),
        CallPlan::Write(_, _, count) => (*files, count as i64),
        CallPlan::Exit(code) => (*files, code as i64),
    }
}

#[test]
fn answers_by_the_table(rt: HostRuntime) -> Result<(), Fail> {
    let mem = ones(rt.alloc(), 64, 0)?;
    let files = Files::new(0x10090, 0x0FF0_0000);
    let rows = [
        (57u64, [9u64, 0, 0], -9i64, 247i64),
        (62, [1, 0, 0], -29, 227),
        (63, [0, 0, 0], -9, 247),
        (56, [0, 0, 0], -14, 242),
        (56, [0, 0, 1], -22, 234),
        (214, [0, 0, 0], 0x10090, 144),
        (1, [0, 0, 0], -38, 218),
    ];
    for (number, a, answer, code) in &rows {
        let (after, given) = performed(&files, *number, *a, &mem);
        assert_eq!(rt; given, *answer);
        let (_, ended) = performed(&after, 93, [given.cast_unsigned(), 0, 0], &mem);
        assert_eq!(rt; ended, *code);
    }
    Ok(())
}

// Memory with this name and a zero at its start, and no byte after the zero.
fn named(alloc: Global, name: &[u8]) -> Result<Stretch, AllocError> {
    let mut bytes = Vec::from_slice(alloc, name)?;
    bytes.push(0)?;
    Ok(Stretch {
        start: START,
        hole: 0,
        bytes,
    })
}

#[test]
fn reads_names_up_to_their_zero(rt: HostRuntime) -> Result<(), Fail> {
    let files = Files::new(0x2000, 0x3FF0_0000);
    for (length, answer) in &[(0usize, -2i64), (1, 3), (255, 3), (256, -36), (257, -36)] {
        let letters = vec![in rt.alloc(); b'a'; *length]?;
        let mem = named(rt.alloc(), &letters)?;
        let (_, given) = performed(&files, 1024, [START, 0, 0], &mem);
        assert_eq!(rt; given, *answer);
        // openat takes its name from the second argument
        let (_, given) = performed(&files, 56, [0, START, 4], &mem);
        assert_eq!(rt; given, *answer);
        // the flags are tested before the name
        let (_, given) = performed(&files, 1024, [0, 1, 0], &mem);
        assert_eq!(rt; given, -22);
    }
    Ok(())
}

#[test]
fn refuses_names_that_leave_the_data(rt: HostRuntime) -> Result<(), Fail> {
    let files = Files::new(0x2000, 0x3FF0_0000);
    // the bytes, none of them zero, go on to what isn't data before and after the 256th
    for (length, hole, answer) in &[
        (255usize, 0u64, -14i64),
        (256, 0, -36),
        (400, START + 255, -14),
        (400, START + 256, -36),
        (400, START, -14),
    ] {
        let mem = ones(rt.alloc(), *length, *hole)?;
        let (_, given) = performed(&files, 1024, [START, 0, 0], &mem);
        assert_eq!(rt; given, *answer);
    }
    let mut top = ones(rt.alloc(), 2, 0)?;
    top.start = u64::MAX - 1;
    let (_, given) = performed(&files, 1024, [u64::MAX, 0, 0], &top);
    assert_eq!(rt; given, -14);
    Ok(())
}

#[test]
fn opens_the_lowest_free_descriptor(rt: HostRuntime) -> Result<(), Fail> {
    let mem = named(rt.alloc(), b"data")?;
    let mut files = Files::new(0x2000, 0x3FF0_0000);
    for number in 3i64..32 {
        let (after, answer) = performed(&files, 1024, [START, 0, 0], &mem);
        assert_eq!(rt; answer, number);
        files = after;
    }
    // all are taken: the name is tested before, and nothing is looked for
    let (_, answer) = performed(&files, 1024, [START, 0, 0], &mem);
    assert_eq!(rt; answer, -24);
    let (_, answer) = performed(&files, 1024, [0, 0, 0], &mem);
    assert_eq!(rt; answer, -14);
    for number in &[31u64, 0, 7] {
        let (closed, answer) = performed(&files, 57, [*number, 0, 0], &mem);
        assert_eq!(rt; answer, 0);
        let (_, answer) = performed(&closed, 57, [*number, 0, 0], &mem);
        assert_eq!(rt; answer, -9);
        let (_, answer) = performed(&closed, 1024, [START, 0, 0], &mem);
        assert_eq!(rt; answer.cast_unsigned(), *number);
    }
    for number in &[32u64, u64::MAX] {
        let (_, answer) = performed(&files, 57, [*number, 0, 0], &mem);
        assert_eq!(rt; answer, -9);
        let (_, answer) = performed(&files, 62, [*number, 0, 0], &mem);
        assert_eq!(rt; answer, -9);
        let (_, answer) = performed(&files, 63, [*number, START, 1], &mem);
        assert_eq!(rt; answer, -9);
    }
    Ok(())
}

const LEAST: u64 = 1 << 63;

const END: u64 = 1 << 56;

#[test]
fn moves_to_offsets_below_their_end(rt: HostRuntime) -> Result<(), Fail> {
    let mem = named(rt.alloc(), b"data")?;
    let (opened, number) = performed(&Files::new(0x2000, 0x3FF0_0000), 1024, [START, 0, 0], &mem);
    let number = number.cast_unsigned();
    let (files, answer) = performed(&opened, 62, [number, 10, 0], &mem);
    assert_eq!(rt; answer, 10);
    for (distance, whence, answer) in &[
        (LEAST, 2u64, -22i64),
        (LEAST - 1, 0, -22),
        (LEAST - 1, 1, -22),
        (u64::MAX, 0, -22),
        (u64::MAX - 10, 1, -22),
        (u64::MAX - 9, 1, 0),
        (u64::MAX - 999, 2, 0),
        (0, 2, 1000),
        (END - 1, 0, (END - 1) as i64),
        (END, 0, -22),
        (END - 11, 1, (END - 1) as i64),
        (END - 10, 1, -22),
        (END - 1001, 2, (END - 1) as i64),
        (0, 3, -22),
        (0, u64::MAX, -22),
    ] {
        let (after, given) = performed(&files, 62, [number, *distance, *whence], &mem);
        assert_eq!(rt; given, *answer);
        let (_, stands) = performed(&after, 62, [number, 0, 1], &mem);
        assert_eq!(rt; stands, if *answer < 0 { 10 } else { *answer });
    }
    Ok(())
}

// Descriptors of which 3 is a file of 100,000 bytes, at this offset.
fn at_offset<B: Bytes>(mem: &B, offset: u64) -> Files {
    let (files, _) = match Name::new(b"data") {
        Some(name) => Files::new(0x2000, 0x3FF0_0000).opened(name, 100_000),
        None => (Files::new(0x2000, 0x3FF0_0000), 0),
    };
    performed(&files, 62, [3, offset, 0], mem).0
}

#[test]
fn reads_what_is_left(rt: HostRuntime) -> Result<(), Fail> {
    let mem = ones(rt.alloc(), 65_537, 0)?;
    for (offset, address, asked, answer) in &[
        (0u64, START, 0u64, 0i64),
        (0, START, 10, 10),
        (0, START, 65_536, 65_536),
        (0, START, 65_537, 65_536),
        (7, START + 1, u64::MAX, 65_536),
        (7, START + 2, u64::MAX, -14),
        (7, START - 1, 1, -14),
        (7, 0, 0, 0),
        (99_999, START, 10, 1),
        (100_000, START, 10, 0),
        (100_001, 0, 10, 0),
        (END - 1, 0, 10, 0),
    ] {
        let files = at_offset(&mem, *offset);
        let (after, given) = performed(&files, 63, [3, *address, *asked], &mem);
        assert_eq!(rt; given, *answer);
        let refused = *answer < 0;
        let key = files.key(63, [3, *address, *asked], &mem);
        assert_eq!(rt; key, if refused { 0 } else { 64 * *offset + 4 });
        let grown = if refused { 0 } else { answer.cast_unsigned() };
        let (_, stands) = performed(&after, 62, [3, 0, 1], &mem);
        assert_eq!(rt; stands.cast_unsigned(), offset.wrapping_add(grown));
        assert_eq!(rt; files.key(64, [1, *address, *asked], &mem), 0);
    }
    Ok(())
}

#[test]
fn writes_to_the_two_outputs_alone(rt: HostRuntime) -> Result<(), Fail> {
    let mem = ones(rt.alloc(), 65_537, 0)?;
    let files = at_offset(&mem, 0);
    for (number, address, asked, answer) in &[
        (1u64, START, 65_536u64, 65_536i64),
        (2, START + 1, 65_537, 65_536),
        (1, START + 2, u64::MAX, -14),
        (2, START + 65_537, 1, -14),
        (0, START, 1, -9),
        (3, START, 1, -9),
        (4, START, 1, -9),
        (32, START, 0, -9),
        (u64::MAX, START, 1, -9),
    ] {
        match files.plan(64, [*number, *address, *asked], &mem) {
            CallPlan::Write(to_out, at, count) => {
                assert_eq!(rt; to_out, *number == 1);
                assert_eq!(rt; at, *address);
                assert_eq!(rt; count as i64, *answer);
            }
            CallPlan::Set(_, given) => assert_eq!(rt; given, *answer),
            _ => panic!(rt; "a write is put or answered"),
        }
    }
    // a write of no bytes is answered, and no byte need be data
    assert!(rt; matches!(files.plan(64, [2, 0, 0], &mem), CallPlan::Set(_, 0)));
    Ok(())
}

#[test]
fn keeps_the_break_between_its_limits(rt: HostRuntime) -> Result<(), Fail> {
    let mem = ones(rt.alloc(), 1, 0)?;
    for most in &[0x0FF0_0000u64, 0x3FF0_0000] {
        let files = Files::new(0x10090, *most);
        let (moved, answer) = performed(&files, 214, [*most, 0, 0], &mem);
        assert_eq!(rt; answer.cast_unsigned(), *most);
        for (to, answer) in &[
            (0x10090u64, 0x10090u64),
            (0x1008F, *most),
            (most.wrapping_add(1), *most),
            (0, *most),
        ] {
            let (_, given) = performed(&moved, 214, [*to, 0, 0], &mem);
            assert_eq!(rt; given.cast_unsigned(), *answer);
        }
    }
    Ok(())
}

#[test]
fn exits_with_the_low_byte(rt: HostRuntime) -> Result<(), Fail> {
    let mem = ones(rt.alloc(), 1, 0)?;
    let files = Files::new(0x2000, 0x3FF0_0000);
    for number in &[93u64, 94] {
        let plan = files.plan(*number, [0x107, 0, 0], &mem);
        assert!(rt; matches!(plan, CallPlan::Exit(7)));
    }
    Ok(())
}
