//! Patterns on a command line.

use super::commands::{Row, command, first_wrong};
use super::images::{EXITS, image};
use std::alloc::Global;
use std::test::Fail;

const NONE: &[u8] = b"spechint: turns over after 0 instructions\n";

const TWO: &[u8] = b"spechint: turns over after 2 instructions\n";

// Command lines over a program that exits with 7 by its third instruction, the eighth word of its own with those of the
// stub. Where an item of the pattern does nothing its moves are turns all the same, so that each line tells which item
// came first.
const FIRST_ITEMS: [Row; 12] = [
    (
        &["run", "--pattern", "O1", "--turns", "7", "w1"],
        124,
        b"",
        TWO,
    ),
    (
        &["run", "--pattern", "O1", "--turns", "8", "w1"],
        7,
        b"",
        b"",
    ),
    (
        &["run", "--pattern", "S1O1", "--turns", "15", "w1"],
        124,
        b"",
        TWO,
    ),
    (
        &["run", "--pattern", "S1O1", "--turns", "16", "w1"],
        7,
        b"",
        b"",
    ),
    (
        &["run", "--pattern", "T1O1", "--turns", "15", "w1"],
        124,
        b"",
        TWO,
    ),
    (
        &["run", "--pattern", "T1O1", "--turns", "16", "w1"],
        7,
        b"",
        b"",
    ),
    (
        &["run", "--pattern", "D1O1", "--turns", "15", "w1"],
        124,
        b"",
        TWO,
    ),
    (
        &["run", "--pattern", "D1O1", "--turns", "16", "w1"],
        7,
        b"",
        b"",
    ),
    (
        &["run", "--pattern", "D1000000O1", "--turns", "1000000", "w1"],
        124,
        b"",
        NONE,
    ),
    (
        &["run", "--pattern", "O8D1000000", "--turns", "8", "w1"],
        7,
        b"",
        b"",
    ),
    (
        &["trace", "--pattern", "T9O3", "--turns", "34", "w1"],
        124,
        b"2 0 turns\n",
        TWO,
    ),
    (
        &["trace", "--pattern", "T9O3", "--turns", "35", "w1"],
        7,
        b"3 0 exit 7\n",
        b"",
    ),
];

#[test]
fn a_pattern_begins_with_its_first_item(rt: HostRuntime) -> Result<(), Fail> {
    let file = image(rt.alloc(), &EXITS)?;
    assert_eq!(rt; first_wrong(rt.alloc(), &FIRST_ITEMS, &file)?, None);
    Ok(())
}

// A pattern of so many items, each of these bytes, and then an own word.
fn pattern(alloc: Global, items: u32, item: &str) -> Result<String, Fail> {
    let mut pattern = String::new(alloc);
    for _ in 1..items {
        pattern.push_str(item)?;
    }
    pattern.push_str("O1")?;
    Ok(pattern)
}

#[test]
fn a_pattern_has_at_most_65_536_items(rt: HostRuntime) -> Result<(), Fail> {
    let alloc = rt.alloc();
    let file = image(alloc, &EXITS)?;
    let rows = [
        (65_536, "D1", 7u8),
        (65_537, "D1", 120),
        (65_536, "S1000000", 124),
        (65_537, "S1000000", 120),
    ];
    for (items, item, code) in rows {
        let pattern = pattern(alloc, items, item)?;
        let words = ["run", "--pattern", pattern.as_str(), "w1"];
        let told = command(alloc, &words, &file, b"", &[], &[])?;
        assert_eq!(rt; told.status.code(), code);
    }
    Ok(())
}
