//! The commands `replay` and `plan` over a trace in memory.

use super::commands::{Row, command, first_wrong, over_reads};
use std::test::Fail;

// Three blocks, and the first two of them again.
const AGAIN: &[u8] =
    b"1 0 restart 61 4096 1\n2 0 restart 61 8192 1\n3 0 restart 61 12288 1\n4 0 restart 61 4096 1\n5 0 restart 61 8192 1\n";

#[test]
fn a_trace_is_replayed_and_planned(rt: HostRuntime) -> Result<(), Fail> {
    let rows: [Row; 2] = [
        (
            &["replay", "--blocks", "2", "w1"],
            0,
            b"replay reads 5 needs 5 stalls 5 fetches 5\n",
            b"",
        ),
        (
            &["plan", "--blocks=2", "w1"],
            0,
            b"plan needs 5 fetches 4 blocks 2\n",
            b"",
        ),
    ];
    assert_eq!(rt; first_wrong(rt.alloc(), &rows, AGAIN)?, None);
    Ok(())
}

#[test]
fn a_file_of_no_lines_is_a_trace(rt: HostRuntime) -> Result<(), Fail> {
    let rows: [Row; 2] = [
        (
            &["replay", "w1"],
            0,
            b"replay reads 0 needs 0 stalls 0 fetches 0\n",
            b"",
        ),
        (
            &["plan", "w1"],
            0,
            b"plan needs 0 fetches 0 blocks 256\n",
            b"",
        ),
    ];
    assert_eq!(rt; first_wrong(rt.alloc(), &rows, b"")?, None);
    Ok(())
}

#[test]
fn the_first_bad_line_is_told(rt: HostRuntime) -> Result<(), Fail> {
    let rows: [Row; 2] = [
        (&["replay", "w1"], 118, b"", b"spechint: w1: bad line 2\n"),
        (&["plan", "w1"], 118, b"", b"spechint: w1: bad line 2\n"),
    ];
    assert_eq!(rt;
        first_wrong(rt.alloc(), &rows, b"1 0 turns\n1 0 turn\n")?,
        None
    );
    Ok(())
}

// All reads behind the first are hinted. A fetch that takes as long as the run makes each read wait.
#[test]
fn the_trace_of_a_run_is_replayed_and_planned(rt: HostRuntime) -> Result<(), Fail> {
    let rows: [Row; 3] = [
        (
            &["replay", "w1"],
            0,
            b"replay reads 40 needs 40 stalls 1 fetches 40\n",
            b"",
        ),
        (
            &["replay", "--every", "1000000", "w1"],
            0,
            b"replay reads 40 needs 40 stalls 40 fetches 40\n",
            b"",
        ),
        (
            &["plan", "w1"],
            0,
            b"plan needs 40 fetches 40 blocks 256\n",
            b"",
        ),
    ];
    let trace = over_reads(rt.alloc(), &["trace", "w1"], &[])?.out;
    assert_eq!(rt; first_wrong(rt.alloc(), &rows, &trace)?, None);
    Ok(())
}

#[test]
fn a_fault_of_a_plan_is_told(rt: HostRuntime) -> Result<(), Fail> {
    let told = command(rt.alloc(), &["plan", "w1"], AGAIN, b"", &[2], &[])?;
    assert_eq!(rt; told.status.code(), 122);
    let told = command(rt.alloc(), &["plan", "w1"], AGAIN, b"", &[], &[1])?;
    assert_eq!(rt; told.status.code(), 123);
    Ok(())
}
