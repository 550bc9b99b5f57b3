//! Commands over a store and two outputs in memory.

use super::images::reads;
use spec_base::Name;
use spechint_commands::{Status, spechint};
use std::alloc::Global;
use std::test::Fail;
use world_io::{MemSink, MemStore};

/// What a command comes to: its status, and what both outputs took.
#[derive(Drop)]
pub struct Told {
    pub status: Status,
    pub out: Vec<u8>,
    pub err: Vec<u8>,
}

/// Whether a command ended with a code, and with these bytes on both outputs.
pub fn is_told(told: &Told, code: u8, out: &[u8], err: &[u8]) -> bool {
    told.status.code() == code && told.out.as_slice() == out && told.err.as_slice() == err
}

// Adds a file, if it isn't longer than those of the tests.
fn add(store: &mut MemStore, name: &[u8], bytes: &[u8]) -> Result<(), Fail> {
    let name = Name::new(name).ok_or("name")?;
    if bytes.len() > 1_000_000 {
        return Err("long".into());
    }
    store.add(name, bytes)?;
    Ok(())
}

// A store with the files `w1` and `data`, whose calls with these numbers fail.
fn store(alloc: Global, file: &[u8], data: &[u8], fails: &[u64]) -> Result<MemStore, Fail> {
    let mut store = MemStore::new(alloc, fails.to_vec(alloc)?);
    add(&mut store, b"w1", file)?;
    add(&mut store, b"data", data)?;
    Ok(store)
}

/// An output whose puts with these numbers fail.
pub fn output(alloc: Global, fails: &[u64]) -> Result<MemSink, Fail> {
    Ok(MemSink::new(alloc, 20_000, fails.to_vec(alloc)?, Vec::new(alloc))?)
}

/// An output that takes one byte of each of its first 1,000 puts, and whose puts with these numbers fail.
pub fn slow_output(alloc: Global, fails: &[u64]) -> Result<MemSink, Fail> {
    let most = vec![in alloc; 1usize; 1000]?;
    Ok(MemSink::new(alloc, 20_000, fails.to_vec(alloc)?, most)?)
}

// The words of a command line.
fn line(alloc: Global, words: &[&str]) -> Result<Vec<String>, Fail> {
    let mut line = Vec::new(alloc);
    for word in words {
        line.push(String::from_str(alloc, word)?)?;
    }
    Ok(line)
}

// Does what a command line says.
fn perform(
    alloc: Global,
    line: &[String],
    store: &mut MemStore,
    out: &mut MemSink,
    err: &mut MemSink,
) -> Status {
    spechint(alloc, line, store, out, err)
}

// What outputs took behind this status.
fn outcome(alloc: Global, status: Status, out: &MemSink, err: &MemSink) -> Result<Told, Fail> {
    Ok(Told {
        status,
        out: out.bytes().to_vec(alloc)?,
        err: err.bytes().to_vec(alloc)?,
    })
}

/// What a command line comes to over a store with the files `w1` and `data`, whose calls in `fails` fail, and two outputs.
pub fn command_over(
    alloc: Global,
    words: &[&str],
    file: &[u8],
    data: &[u8],
    fails: &[u64],
    out: MemSink,
    err: MemSink,
) -> Result<Told, Fail> {
    let mut store = store(alloc, file, data, fails)?;
    let (mut out, mut err) = (out, err);
    let line = line(alloc, words)?;
    let status = perform(alloc, &line, &mut store, &mut out, &mut err);
    outcome(alloc, status, &out, &err)
}

/// What a command line comes to over a store with the files `w1` and `data`, whose calls in `fails` fail, and a standard
/// output whose puts in `stops` fail.
pub fn command(
    alloc: Global,
    words: &[&str],
    file: &[u8],
    data: &[u8],
    fails: &[u64],
    stops: &[u64],
) -> Result<Told, Fail> {
    let (out, err) = (output(alloc, stops)?, output(alloc, &[])?);
    command_over(alloc, words, file, data, fails, out, err)
}

/// What a command without options comes to over a file and no data.
pub fn told_by(alloc: Global, verb: &str, file: &[u8]) -> Result<Told, Fail> {
    command(alloc, &[verb, "w1"], file, b"", &[], &[])
}

/// What a command line comes to over a program that reads 64 bytes of each of the 40 blocks of `data`.
pub fn over_reads(alloc: Global, words: &[&str], fails: &[u64]) -> Result<Told, Fail> {
    let data = vec![in alloc; 7u8; 163_840]?;
    command(alloc, words, &reads(alloc)?, &data, fails, &[])
}

/// A command line, the code that it ends with, and the bytes on both outputs.
pub type Row = (&'static [&'static str], u8, &'static [u8], &'static [u8]);

/// The first of these command lines that comes to something else, over a file and no data.
pub fn first_wrong(alloc: Global, rows: &[Row], file: &[u8]) -> Result<Option<usize>, Fail> {
    let mut number = 0usize;
    for (words, code, out, err) in rows {
        let told = command(alloc, words, file, b"", &[], &[])?;
        if !is_told(&told, *code, out, err) {
            return Ok(Some(number));
        }
        number = number.wrapping_add(1);
    }
    Ok(None)
}
