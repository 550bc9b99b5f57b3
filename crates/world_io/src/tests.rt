//! What the stores and the sinks answer, as this project's rules for the outside say.
ghost use Rattle.std.specs.Prelude.{◌≡◌, ◌<◌, ◌^◌, length, IfOk};

use crate::{
    BLOCK, BufSink, CleanStore, CountSink, Fetch, HostSink, HostStore, Look, MemSink, MemStore,
    Put, Sink, Store, put_all,
};
use spec_base::Name;
use std::alloc::{AllocError, Global};
use std::fs;
use std::test::Fail;

// The bytes of a test file from a place on: byte i is i modulo 251.
fn file_bytes(alloc: Global, start: usize, count: usize) -> Result<Vec<u8>, AllocError>
    requires start { start < 2 ^ 32 }
    requires count { count < 2 ^ 32 }
    ensures { IfOk result (λ v. length v.items ≡ count) }
{
    (start..start + count)
        .map(|at| (at % 251) as u8)
        .collect(alloc)
}

fn zeros(alloc: Global, count: usize) -> Result<Vec<u8>, AllocError>
    ensures { IfOk result (λ v. length v.items ≡ count) }
{
    vec![in alloc; 0; count]
}

fn name(text: &str) -> Result<Name, Fail> {
    Ok(Name::new(text.as_bytes()).ok_or("no name")?)
}

// The bytes of a block, or none where the fetch failed.
fn fetched<S: Store>(
    alloc: Global,
    store: &mut S,
    name: &Name,
    block: u64,
) -> Result<Option<Vec<u8>>, AllocError> {
    let mut into = zeros(alloc, BLOCK)?;
    match store.fetch(name, block, &mut into) {
        Fetch::Got(count) => {
            into.truncate(count);
            Ok(Some(into))
        }
        Fetch::Failed => Ok(None),
    }
}

#[test]
fn files_are_read_in_blocks(rt: HostRuntime) -> Result<(), Fail> {
    let alloc = rt.alloc();
    let file = file_bytes(alloc, 0, 5000)?;
    let data = name("data")?;
    let mut clean = CleanStore::new(alloc);
    clean.add(data, &file)?;
    assert_eq!(rt; clean.look(&data), Look::Found(5000));
    assert_eq!(rt; clean.look(&name("none")?), Look::Absent);
    for (block, count) in [(0, 4096), (1, 904), (2, 0), (u64::MAX, 0)] {
        let got = fetched(alloc, &mut clean, &data, block)?.ok_or("failed")?;
        let start = if block == 0 { 0 } else { 4096 };
        let want = file_bytes(alloc, start, count)?;
        assert_eq!(rt; got.as_slice(), want.as_slice(), "block {block}");
    }
    Ok(())
}

#[test]
fn listed_calls_fail(rt: HostRuntime) -> Result<(), Fail> {
    let alloc = rt.alloc();
    let data = name("data")?;
    let mut store = MemStore::new(alloc, vec![in alloc; 2, 3]?);
    store.add(data, b"old bytes")?;
    store.add(data, b"new")?;
    assert_eq!(rt; store.look(&data), Look::Found(3));
    assert_eq!(rt; store.look(&data), Look::Failed);
    assert!(rt; fetched(alloc, &mut store, &data, 0)?.is_none());
    let got = fetched(alloc, &mut store, &data, 0)?.ok_or("failed")?;
    assert_eq!(rt; got.as_slice(), b"new".as_slice());
    Ok(())
}

#[test]
fn sinks_in_memory_take_what_they_say(rt: HostRuntime) -> Result<(), Fail> {
    let alloc = rt.alloc();
    let mut short = MemSink::new(alloc, 5, Vec::new(alloc), vec![in alloc; 3]?)?;
    assert_eq!(rt; short.put(b"0123456789"), Put::Took(3));
    assert_eq!(rt; short.put(b""), Put::Took(0));
    assert_eq!(rt; short.put(b"3456789"), Put::Took(2));
    assert_eq!(rt; short.put(b"56789"), Put::Failed);
    assert_eq!(rt; short.bytes(), b"01234".as_slice());
    let mut whole = BufSink::new(alloc, 5)?;
    assert_eq!(rt; whole.put(b"0123"), Put::Took(4));
    assert_eq!(rt; whole.put(b"45"), Put::Failed);
    assert_eq!(rt; whole.put(b"4"), Put::Took(1));
    assert_eq!(rt; whole.bytes(), b"01234".as_slice());
    assert_eq!(rt; CountSink::new().put(b"0123456789"), Put::Took(10));
    Ok(())
}

#[test]
fn texts_are_put_whole(rt: HostRuntime) -> Result<(), Fail> {
    let alloc = rt.alloc();
    let mut slow = MemSink::new(alloc, 5, Vec::new(alloc), vec![in alloc; 1, 0, 1, 1, 1]?)?;
    assert!(rt; put_all(&mut slow, b"hello"));
    assert_eq!(rt; slow.bytes(), b"hello".as_slice());
    let mut broken = MemSink::new(alloc, 5, vec![in alloc; 2]?, vec![in alloc; 2]?)?;
    assert!(rt; !put_all(&mut broken, b"hello"));
    assert_eq!(rt; broken.bytes(), b"he".as_slice());
    Ok(())
}

#[test]
fn the_host_has_files_and_writers(rt: HostRuntime) -> Result<(), Fail> {
    let alloc = rt.alloc();
    let path = "world_io_test_file";
    let data = name(path)?;
    let mut writer = HostSink::new(fs::create(&rt, path)?);
    assert!(rt; put_all(&mut writer, &file_bytes(alloc, 0, 5000)?));
    let mut store = HostStore::new(rt);
    assert_eq!(rt; store.look(&data), Look::Found(5000));
    assert_eq!(rt; store.look(&name(".")?), Look::Absent);
    let got = fetched(alloc, &mut store, &data, 1)?.ok_or("failed")?;
    let want = file_bytes(alloc, 4096, 904)?;
    assert_eq!(rt; got.as_slice(), want.as_slice());
    fs::remove_file(&rt, path)?;
    assert_eq!(rt; store.look(&data), Look::Absent);
    let no_text = Name::new(&[0xFF]).ok_or("no name")?;
    assert_eq!(rt; store.look(&no_text), Look::Absent);
    Ok(())
}
