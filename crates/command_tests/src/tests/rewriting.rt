//! Rewriting a file, and running one that was rewritten.

use super::commands::{Told, command, is_told, told_by};
use super::images::{EXITS, image};
use std::alloc::Global;
use std::test::Fail;

// The rewriting of a program that exits, over an output whose puts in `stops` fail.
fn rewriting(alloc: Global, stops: &[u64]) -> Result<Told, Fail> {
    let file = image(alloc, &EXITS)?;
    command(alloc, &["rewrite", "w1"], &file, b"", &[], stops)
}

#[test]
fn a_rewritten_file_is_put(rt: HostRuntime) -> Result<(), Fail> {
    let told = rewriting(rt.alloc(), &[])?;
    assert_eq!(rt; told.status.code(), 0);
    assert_eq!(rt; told.out.len(), 16_668);
    assert_eq!(rt; told.err.len(), 0);
    let told = rewriting(rt.alloc(), &[1])?;
    assert!(rt; is_told(&told, 123, b"", b""));
    Ok(())
}

// Why a rewritten file is refused.
const ALREADY: &[u8] = b"spechint: w1: refused: E12 Already\n";

#[test]
fn a_rewritten_file_runs_as_it_is(rt: HostRuntime) -> Result<(), Fail> {
    let alloc = rt.alloc();
    let mut file = rewriting(alloc, &[])?.out;
    let told = told_by(alloc, "run", &file)?;
    assert!(rt; is_told(&told, 7, b"", b""));
    let told = told_by(alloc, "rewrite", &file)?;
    assert!(rt; is_told(&told, 121, b"", ALREADY));
    if let Some(byte) = file.get_mut(9000) {
        *byte ^= 1;
    }
    let told = told_by(alloc, "run", &file)?;
    assert!(rt; is_told(&told, 121, b"", ALREADY));
    Ok(())
}
