//! Needs cached blocks a million times, to be timed; exits with 1 where an answer isn't as wanted.
#![tactic(auto)]

ghost use Rattle.std.specs.Prelude.{◌≡◌, ◌<◌, ◌^◌, length, None, IfOk};

use cache_queue::{Cache, Finished, Need};
use spec_base::{BlockSpot, Name, NoMemory};
use std::alloc::{AllocError, Global};
use std::process::ExitCode;
use world_io::MemStore;

const BLOCKS: u64 = 4;

const NEEDS: u64 = 1_000_000;

// A file of four blocks. Each byte is the number of its block.
fn file(alloc: Global) -> Result<Vec<u8>, AllocError>
    ensures { IfOk result (λ v. length v.items < 2 ^ 56) }
{
    (0..16384usize).map(|at| (at / 4096) as u8).collect(alloc)
}

// A store of this file.
fn store(alloc: Global, name: Name) -> Result<MemStore, NoMemory> {
    let mut store = MemStore::new(alloc, Vec::new(alloc));
    store.add(name, &file(alloc)?)?;
    Ok(store)
}

// Takes the blocks of the file into the cache; false where one wasn't taken.
fn take_in(cache: &mut Cache, store: &mut MemStore, name: Name, into: &mut [u8]) -> bool
    requires idle { cache.old.demanded ≡ None }
    requires size { length into.old ≡ 4096 }
    ensures idle { cache.new.demanded ≡ None }
{
    for block in 0..BLOCKS {
        cache.hint(BlockSpot { name, block });
        if !matches!(cache.finish(store, into), Finished::Put(_)) {
            return false;
        }
    }
    true
}

// Needs one block after another, round and round; false where one wasn't cached, or has other bytes.
fn need_all(cache: &mut Cache, name: Name, into: &mut [u8]) -> bool
    requires idle { cache.old.demanded ≡ None }
    requires size { length into.old ≡ 4096 }
{
    for at in 0..NEEDS {
        let block = at % BLOCKS;
        let ready = cache.need(BlockSpot { name, block }, into) == Need::Ready;
        if !ready || into[0] as u64 != block || into[4095] as u64 != block {
            return false;
        }
    }
    true
}

// Whether all went as wanted.
fn bench(alloc: Global, name: Name) -> Result<bool, NoMemory> {
    let mut store = store(alloc, name)?;
    let mut cache = Cache::new(alloc, 8, 8)?;
    let mut into = [0; 4096];
    Ok(take_in(&mut cache, &mut store, name, &mut into) && need_all(&mut cache, name, &mut into))
}

fn main(rt: HostRuntime) -> ExitCode {
    let Some(name) = Name::new(b"data") else {
        return ExitCode::from(1);
    };
    match bench(rt.alloc(), name) {
        Ok(true) => ExitCode::from(0),
        _ => ExitCode::from(1),
    }
}
