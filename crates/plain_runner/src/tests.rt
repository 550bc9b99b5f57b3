//! Programs that open and read files, over a store and sinks in memory. The words are those that an
//! assembler gives for the instructions beside them.

use crate::{Ending, run};
use file_calls::Files;
use hart_mem::{Mem, Width};
use hart_step::Hart;
use rv_model::Bytes;
use spec_base::{Layout, Name, NoMemory, Reg, Version, View};
use std::alloc::Global;
use std::test::Fail;
use world_io::{MemSink, MemStore};

const TEXT: u64 = 0x1_0000;

// Where the name of the first file stands.
const ONE: u64 = 0x2_0000;

// Where the name of the second file stands.
const TWO: u64 = 0x2_0100;

// Where bytes are read to: five bytes before a page's end.
const PLACE: u64 = 0x3_0FFB;

// The next page.
const NEXT: u64 = 0x3_1000;

// More instructions than any of the programs completes.
const MANY: u64 = 1000;

// Opens the file whose name x8 points to.
const OPEN_ONE: [u32; 4] = [
    0x0004_0513, // addi x10,x8,0
    0x0000_0593, // addi x11,x0,0
    0x4000_0893, // addi x17,x0,1024
    0x0000_0073, // ecall
];

// Opens the file whose name x9 points to.
const OPEN_OTHER: [u32; 4] = [
    0x0004_8513, // addi x10,x9,0
    0x0000_0593, // addi x11,x0,0
    0x4000_0893, // addi x17,x0,1024
    0x0000_0073, // ecall
];

// Seeks descriptor 3 by x20 from where x21 says.
const SEEK: [u32; 5] = [
    0x0030_0513, // addi x10,x0,3
    0x000A_0593, // addi x11,x20,0
    0x000A_8613, // addi x12,x21,0
    0x03E0_0893, // addi x17,x0,62
    0x0000_0073, // ecall
];

// Reads x19 bytes of descriptor 3 to where x18 says.
const READ: [u32; 5] = [
    0x0030_0513, // addi x10,x0,3
    0x0009_0593, // addi x11,x18,0
    0x0009_8613, // addi x12,x19,0
    0x03F0_0893, // addi x17,x0,63
    0x0000_0073, // ecall
];

// Reads x19 bytes of descriptor 3 to where x22 says.
const READ_NEXT: [u32; 5] = [
    0x0030_0513, // addi x10,x0,3
    0x000B_0593, // addi x11,x22,0
    0x0009_8613, // addi x12,x19,0
    0x03F0_0893, // addi x17,x0,63
    0x0000_0073, // ecall
];

// Reads x19 bytes of descriptor 4 to where x18 says.
const READ_OTHER: [u32; 5] = [
    0x0040_0513, // addi x10,x0,4
    0x0009_0593, // addi x11,x18,0
    0x0009_8613, // addi x12,x19,0
    0x03F0_0893, // addi x17,x0,63
    0x0000_0073, // ecall
];

// Writes as many bytes as x10 says.
const WRITE: [u32; 5] = [
    0x0005_0613, // addi x12,x10,0
    0x0010_0513, // addi x10,x0,1
    0x0009_0593, // addi x11,x18,0
    0x0400_0893, // addi x17,x0,64
    0x0000_0073, // ecall
];

// Writes ten bytes.
const WRITE_TEN: [u32; 5] = [
    0x00A0_0613, // addi x12,x0,10
    0x0010_0513, // addi x10,x0,1
    0x0009_0593, // addi x11,x18,0
    0x0400_0893, // addi x17,x0,64
    0x0000_0073, // ecall
];

// Exits with x10.
const EXIT: [u32; 2] = [
    0x05D0_0893, // addi x17,x0,93
    0x0000_0073, // ecall
];

// Opens `one`, seeks, reads, and writes what it has read. It exits with the write's answer.
const READS: [&[u32]; 5] = [&OPEN_ONE, &SEEK, &READ, &WRITE, &EXIT];

// Opens two files, reads of the second and then of the first, and writes ten bytes.
const TWICE: [&[u32]; 6] = [
    &OPEN_ONE,
    &OPEN_OTHER,
    &READ_OTHER,
    &READ_NEXT,
    &WRITE_TEN,
    &EXIT,
];

// Opens `one`, reads of it twice, and writes ten bytes.
const AGAIN: [&[u32]; 5] = [&OPEN_ONE, &READ, &READ_NEXT, &WRITE_TEN, &EXIT];

// Opens a file, and exits with the answer.
const OPENS: [&[u32]; 2] = [&OPEN_OTHER, &EXIT];

// What a program is run with: how many bytes it asks for, how far it seeks and from where, which calls
// on the store fail, how many bytes each put takes at most, and how many instructions are allowed.
#[derive(Clone, Copy)]
struct Setting<'a> {
    asked: u64,
    distance: i64,
    whence: u64,
    fails: &'a [u64],
    most: &'a [usize],
    turns: u64,
}

#[derive(Drop)]
struct Ran {
    ending: Ending,
    out: Vec<u8>,
    mem: Mem,
}

// So many bytes, of which byte i is i modulo 251.
fn counting(alloc: Global, count: usize) -> Result<Vec<u8>, NoMemory> {
    Ok((0..count).map(|at| (at % 251) as u8).collect(alloc)?)
}

// A store with `one`, of 70,000 bytes, and `two`, of five.
fn store_of(alloc: Global, fails: &[u64]) -> Result<MemStore, Fail> {
    let mut store = MemStore::new(alloc, fails.to_vec(alloc)?);
    let one = counting(alloc, 70_000)?;
    if one.len() < 100_000 {
        store.add(Name::new(b"one").ok_or("name")?, &one)?;
    }
    store.add(Name::new(b"two").ok_or("name")?, b"other")?;
    Ok(store)
}

// A memory with a text and the names `one` and `two`, with 17 spare frames.
fn memory_of(alloc: Global, program: &[&[u32]]) -> Result<Mem, Fail> {
    let mut words = Vec::new(alloc);
    for part in program {
        words.extend_from_slice(part)?;
    }
    let layout = Layout {
        text_start: TEXT,
        text_end: TEXT + 4 * words.len().min(100) as u64,
        regions: 1,
        version: Version::One,
    };
    if !layout.is_lawful() || words.len() > 100 {
        return Err("layout".into());
    }
    let mut mem = Mem::new(alloc, layout, words)?;
    mem.reserve(17)?;
    for (start, name) in [(ONE, b"one"), (TWO, b"two")] {
        for (at, byte) in name.iter().enumerate() {
            let address = start.wrapping_add(at as u64);
            let stored = mem.store(View::Plain, address, Width::One, *byte as u64);
            stored.ok().ok_or("no data")?;
        }
    }
    Ok(mem)
}

// A hart at the start of a text.
fn hart_of(setting: &Setting, name: u64) -> Hart {
    let mut hart = Hart::new(TEXT, View::Plain);
    let values = [
        (8u32, ONE),
        (9, name),
        (18, PLACE),
        (19, setting.asked),
        (20, setting.distance.cast_unsigned()),
        (21, setting.whence),
        (22, NEXT),
    ];
    for (number, value) in values {
        hart.set_reg(Reg::from_low_bits(number), value);
    }
    hart
}

fn outcome_of(
    alloc: Global,
    program: &[&[u32]],
    name: u64,
    setting: &Setting,
) -> Result<Ran, Fail> {
    let mut store = store_of(alloc, setting.fails)?;
    let mut out = MemSink::new(alloc, 70_000, Vec::new(alloc), setting.most.to_vec(alloc)?)?;
    let mut err = MemSink::new(alloc, 0, Vec::new(alloc), Vec::new(alloc))?;
    let mut hart = hart_of(setting, name);
    let mut mem = memory_of(alloc, program)?;
    let mut files = Files::new(0x4_0000, 0x5_0000);
    let ending = run(
        alloc,
        &mut hart,
        &mut mem,
        &mut files,
        setting.turns,
        &mut store,
        &mut out,
        &mut err,
    );
    let out = out.bytes().to_vec(alloc)?;
    Ok(Ran { ending, out, mem })
}

const PLAIN: Setting = Setting {
    asked: 5,
    distance: 0,
    whence: 0,
    fails: &[],
    most: &[],
    turns: MANY,
};

#[test]
fn reads_what_the_file_has_there(rt: HostRuntime) -> Result<(), Fail> {
    let alloc = rt.alloc();
    let file = counting(alloc, 70_000)?;
    // distance, whence, bytes asked for, and the part of the file that comes
    let rows = [
        (0i64, 0u64, 10u64, 0usize, 10usize),
        (4090, 0, 20, 4090, 4110),
        (4096, 0, 4096, 4096, 8192),
        (69_990, 0, 100, 69_990, 70_000),
        (-4, 2, 100, 69_996, 70_000),
        (4095, 0, 70_000, 4095, 69_631),
        (0, 0, 0, 0, 0),
        (80_000, 0, 7, 0, 0),
    ];
    for (distance, whence, asked, start, end) in rows {
        let setting = Setting {
            asked,
            distance,
            whence,
            ..PLAIN
        };
        let told = outcome_of(alloc, &READS, TWO, &setting)?;
        let want = file.get(start..end).ok_or("range")?;
        assert_eq!(rt; told.out.as_slice(), want);
        assert_eq!(rt; told.ending, Ending::Exited((want.len() % 256) as u8));
    }
    Ok(())
}

#[test]
fn keeps_a_place_in_each_file(rt: HostRuntime) -> Result<(), Fail> {
    let alloc = rt.alloc();
    let told = outcome_of(alloc, &TWICE, TWO, &PLAIN)?;
    assert_eq!(rt; told.ending, Ending::Exited(10));
    assert_eq!(rt; told.out.as_slice(), b"other\0\x01\x02\x03\x04".as_slice());
    let told = outcome_of(alloc, &AGAIN, TWO, &PLAIN)?;
    assert_eq!(rt; told.ending, Ending::Exited(10));
    assert_eq!(rt; told.out.as_slice(), counting(alloc, 10)?.as_slice());
    Ok(())
}

#[test]
fn opens_the_lowest_free_descriptor(rt: HostRuntime) -> Result<(), Fail> {
    let alloc = rt.alloc();
    // where the name stands, and the answer modulo 256: `two` is there, `ne` isn't, an empty name is
    // refused, and the text isn't data
    for (name, code) in [(TWO, 3u8), (ONE + 1, 254), (TWO + 3, 254), (TEXT, 242)] {
        let told = outcome_of(alloc, &OPENS, name, &PLAIN)?;
        assert_eq!(rt; told.ending, Ending::Exited(code));
    }
    Ok(())
}

#[test]
fn a_failed_call_on_the_store_ends_the_run(rt: HostRuntime) -> Result<(), Fail> {
    let alloc = rt.alloc();
    // the number of the call that fails: a look, the fetches of blocks 0 and 1, and none more
    let rows = [
        (1u64, Ending::StoreFault, 0usize),
        (2, Ending::StoreFault, 0),
        (3, Ending::StoreFault, 0),
        (4, Ending::Exited(20), 20),
    ];
    for (number, ending, count) in rows {
        let setting = Setting {
            asked: 20,
            distance: 4090,
            fails: &[number],
            ..PLAIN
        };
        let told = outcome_of(alloc, &READS, TWO, &setting)?;
        assert_eq!(rt; told.ending, ending);
        assert_eq!(rt; told.out.len(), count);
        let first = if count == 0 { 0 } else { 74 };
        assert_eq!(rt; told.mem.byte(PLACE), Some(first));
    }
    Ok(())
}

#[test]
fn a_read_of_no_bytes_asks_nothing(rt: HostRuntime) -> Result<(), Fail> {
    let setting = Setting {
        asked: 0,
        fails: &[2],
        ..PLAIN
    };
    let told = outcome_of(rt.alloc(), &READS, TWO, &setting)?;
    assert_eq!(rt; told.ending, Ending::Exited(0));
    Ok(())
}

#[test]
fn a_put_may_take_one_byte(rt: HostRuntime) -> Result<(), Fail> {
    let setting = Setting {
        most: &[1],
        ..PLAIN
    };
    let told = outcome_of(rt.alloc(), &READS, TWO, &setting)?;
    assert_eq!(rt; told.ending, Ending::Exited(1));
    assert_eq!(rt; told.out.as_slice(), b"\0".as_slice());
    Ok(())
}

#[test]
fn turns_are_instructions(rt: HostRuntime) -> Result<(), Fail> {
    let rows = [
        (0u64, Ending::TurnsOver(0)),
        (20, Ending::TurnsOver(20)),
        (21, Ending::Exited(5)),
    ];
    for (turns, ending) in rows {
        let setting = Setting { turns, ..PLAIN };
        assert_eq!(rt;
            outcome_of(rt.alloc(), &READS, TWO, &setting)?.ending,
            ending
        );
    }
    Ok(())
}
