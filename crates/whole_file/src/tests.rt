//! Reading from a store in memory.

use crate::reading::{ReadFault, read_whole};
use spec_base::Name;
use std::alloc::Global;
use std::test::Fail;
use world_io::MemStore;

// A store with one file of 5,000 bytes, two blocks, whose calls in `fails` fail.
fn store(alloc: Global, fails: &[u64]) -> Result<MemStore, Fail> {
    let mut store = MemStore::new(alloc, fails.to_vec(alloc)?);
    store.add(Name::new(b"long").ok_or("name")?, &[7; 5000])?;
    Ok(store)
}

// How many bytes come of the file, or why none do.
fn length(alloc: Global, name: &[u8], fails: &[u64]) -> Result<Result<usize, ReadFault>, Fail> {
    let mut store = store(alloc, fails)?;
    let name = Name::new(name).ok_or("name")?;
    Ok(match read_whole(alloc, &name, &mut store) {
        Ok(bytes) => Ok(bytes.len()),
        Err(fault) => Err(fault),
    })
}

#[test]
fn a_file_is_read_block_by_block(rt: HostRuntime) -> Result<(), Fail> {
    let alloc = rt.alloc();
    assert_eq!(rt; length(alloc, b"long", &[])?, Ok(5000));
    assert_eq!(rt; length(alloc, b"none", &[])?, Err(ReadFault::Absent));
    Ok(())
}

#[test]
fn a_failed_call_ends_the_reading(rt: HostRuntime) -> Result<(), Fail> {
    let alloc = rt.alloc();
    for number in 1..4u64 {
        assert_eq!(rt; length(alloc, b"long", &[number])?, Err(ReadFault::Failed));
    }
    assert_eq!(rt; length(alloc, b"long", &[4])?, Ok(5000));
    Ok(())
}
