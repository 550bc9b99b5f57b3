//! Commands over a store whose looks and fetches fail, one by one or drawn at random.

use super::commands::{is_told, over_reads};
use std::test::Fail;

// What is put on standard error: the text of a fault, and the reports of runs that differ in their stalls.
const FAULT: &[u8] = b"spechint: read fault\n";

const ONE_STALL: &[u8] =
    b"spechint: instructions 577 stalls 1 restarts 1 matched 39 hints 39 regions 1 shadow 558 parked Exit\n";

const TWO_STALLS: &[u8] =
    b"spechint: instructions 577 stalls 2 restarts 1 matched 39 hints 39 regions 1 shadow 558 parked Exit\n";

const THREE_STALLS: &[u8] =
    b"spechint: instructions 577 stalls 3 restarts 1 matched 39 hints 39 regions 1 shadow 558 parked Exit\n";

const ALL_STALLS: &[u8] =
    b"spechint: instructions 577 stalls 40 restarts 40 matched 0 hints 0 regions 0 shadow 0 running\n";

// Calls 1 to 3 find the image, read it and find `data`, and call 4 is the first fetch of a block.
#[test]
fn plain_ends_at_the_first_call_that_fails(rt: HostRuntime) -> Result<(), Fail> {
    for number in 1..44u64 {
        let told = over_reads(rt.alloc(), &["plain", "w1"], &[number])?;
        assert!(rt; is_told(&told, 122, b"", FAULT), "call {number}");
    }
    let told = over_reads(rt.alloc(), &["plain", "w1"], &[44])?;
    assert!(rt; is_told(&told, 0, b"done\n", b""));
    Ok(())
}

// Calls 1 to 3 find the image, read it and find `data`. Those behind fetch blocks that the shadow hinted, but for call 7,
// which fetches the block that the program waits for. One that fails is fetched again where the program waits for it.
#[test]
fn a_failed_fetch_is_told_where_it_is_waited_for(rt: HostRuntime) -> Result<(), Fail> {
    for number in 1..45u64 {
        let told = over_reads(rt.alloc(), &["run", "--report", "w1"], &[number])?;
        let is_well = match number {
            1 | 2 | 3 | 7 => is_told(&told, 122, b"", FAULT),
            44 => is_told(&told, 0, b"done\n", ONE_STALL),
            _ => is_told(&told, 0, b"done\n", TWO_STALLS),
        };
        assert!(rt; is_well, "call {number}");
    }
    Ok(())
}

// The numbers from 3 to 60 of the calls that fail were drawn at random, each with a chance of one in 24. A run ends by
// the fault where it waits for a call that fails: the look of `data`, or the fetch of a block that it demands. A block
// that the shadow hinted is fetched once more, by a stall.
const DRAWN: [(&str, &[u64], u8, &[u8]); 12] = [
    ("--pattern=O1D1", &[12, 25, 56], 122, FAULT),
    ("--pattern=O1D1", &[4, 22, 35, 41, 44], 122, FAULT),
    ("--pattern=O1D1", &[56], 0, ALL_STALLS),
    ("--pattern=O9D2", &[12, 25, 56], 122, FAULT),
    ("--pattern=O9D2", &[4, 22, 35, 41, 44], 122, FAULT),
    ("--pattern=O9D2", &[56], 0, ALL_STALLS),
    ("--pattern=O1S600D1", &[12, 25, 56], 0, THREE_STALLS),
    ("--pattern=O1S600D1", &[4, 22, 35, 41, 44], 122, FAULT),
    ("--pattern=O1S600D1", &[56], 0, ONE_STALL),
    ("--pattern=O2S40D1", &[12, 25, 56], 0, THREE_STALLS),
    ("--pattern=O2S40D1", &[4, 22, 35, 41, 44], 122, FAULT),
    ("--pattern=O2S40D1", &[56], 0, ONE_STALL),
];

#[test]
fn a_run_ends_where_what_it_waits_for_fails(rt: HostRuntime) -> Result<(), Fail> {
    for (pattern, calls, code, err) in &DRAWN {
        let told = over_reads(rt.alloc(), &["run", "--report", pattern, "w1"], calls)?;
        let out: &[u8] = if *code == 0 { b"done\n" } else { b"" };
        assert!(rt; is_told(&told, *code, out, err), "{pattern} {calls:?}");
    }
    Ok(())
}
