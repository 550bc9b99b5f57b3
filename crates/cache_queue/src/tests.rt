//! Rows of hints, needs and finishes with the answers that the lists of blocks give, and a long run
//! against plain lists.
ghost use Rattle.std.specs.Prelude.{◌≡◌, ◌<◌, ◌^◌, length, IfOk, None};

use crate::{Cache, Finished, Need};
use spec_base::{BlockSpot, Name};
use std::alloc::{AllocError, Global};
use std::process::Abort;
use std::test::Fail;
use world_io::MemStore;

// What is done, and what comes of it. Each number is that of a block.
#[derive(Clone, Copy)]
enum Step {
    Hint(u64),
    Ready(u64),
    Wait(u64),
    Put(u64),
    Dropped(u64),
    Fault(u64),
    Nothing,
    Has(u64),
    Lacks(u64),
}

use Step::{Dropped, Fault, Has, Hint, Lacks, Nothing, Put, Ready, Wait};

fn file_name() -> Result<Name, Fail> {
    Ok(Name::new(b"data").ok_or("no name")?)
}

// A file of six blocks and 100 bytes. Each byte is one more than the number of its block.
fn file(alloc: Global) -> Result<Vec<u8>, AllocError>
    ensures { IfOk result (λ v. length v.items < 2 ^ 56) }
{
    (0..24676usize)
        .map(|at| (at / 4096 + 1) as u8)
        .collect(alloc)
}

// The first byte of a block of this file; zero past its end.
fn first_byte(block: u64) -> u8 {
    if block < 7 { block as u8 + 1 } else { 0 }
}

// The last byte of a block of this file.
fn last_byte(block: u64) -> u8 {
    if block < 6 { block as u8 + 1 } else { 0 }
}

fn store(alloc: Global, fails: Vec<u64>) -> Result<MemStore, Fail> {
    let mut store = MemStore::new(alloc, fails);
    store.add(file_name()?, &file(alloc)?)?;
    Ok(store)
}

fn of(name: &Name, block: u64) -> BlockSpot {
    BlockSpot { name: *name, block }
}

fn play(
    rt: &impl Abort,
    cache: &mut Cache,
    store: &mut MemStore,
    name: &Name,
    into: &mut [u8],
    steps: &[Step],
)
    requires idle { cache.old.demanded ≡ None }
    requires size { length into.old ≡ 4096 }
{
    let mut waiting = false;
    for step in steps {
        match *step {
            Hint(block) => cache.hint(of(name, block)),
            Ready(block) => {
                assert!(rt; !waiting);
                assert_eq!(rt; cache.need(of(name, block), into), Need::Ready);
                assert_eq!(rt;
                    (into[0], into[4095]),
                    (first_byte(block), last_byte(block))
                );
            }
            Wait(block) => {
                assert!(rt; !waiting);
                assert_eq!(rt; cache.need(of(name, block), into), Need::Wait);
                waiting = true;
            }
            Put(block) => {
                assert_eq!(rt; cache.finish(store, into), Finished::Put(of(name, block)));
                assert_eq!(rt;
                    (into[0], into[4095]),
                    (first_byte(block), last_byte(block))
                );
                waiting = false;
            }
            Dropped(block) => {
                assert_eq!(rt;
                    cache.finish(store, into),
                    Finished::Dropped(of(name, block))
                );
                waiting = false;
            }
            Fault(block) => {
                assert_eq!(rt; cache.finish(store, into), Finished::Fault(of(name, block)));
                waiting = false;
            }
            Nothing => {
                assert_eq!(rt; cache.finish(store, into), Finished::Nothing);
                waiting = false;
            }
            Has(block) => {
                assert!(rt; cache.peek(of(name, block), into));
                assert_eq!(rt;
                    (into[0], into[4095]),
                    (first_byte(block), last_byte(block))
                );
            }
            Lacks(block) => assert!(rt; !cache.peek(of(name, block), into)),
        }
    }
}

fn run(
    rt: &impl Abort,
    alloc: Global,
    blocks: usize,
    depth: usize,
    fails: Vec<u64>,
    steps: &[Step],
) -> Result<(), Fail>
    requires blocks { (0 < blocks) × (blocks < 100) }
    requires depth { (0 < depth) × (depth < 100) }
{
    let mut store = store(alloc, fails)?;
    let mut cache = Cache::new(alloc, blocks, depth)?;
    let mut into = vec![in alloc; 9; 4096]?;
    play(rt, &mut cache, &mut store, &file_name()?, &mut into, steps);
    Ok(())
}

#[test]
fn a_full_queue_takes_no_hint(rt: HostRuntime) -> Result<(), Fail> {
    let alloc = rt.alloc();
    let (a, b, c) = (0, 1, 2);
    let steps = [
        Hint(a),
        Hint(b),
        Put(a),
        Nothing,
        Ready(a),
        Wait(b),
        Put(b),
        Wait(c),
        Put(c),
        Wait(a),
    ];
    run(&rt, alloc, 2, 1, Vec::new(alloc), &steps)
}

#[test]
fn the_least_recently_used_block_leaves(rt: HostRuntime) -> Result<(), Fail> {
    let alloc = rt.alloc();
    let (a, b, c) = (0, 1, 2);
    let steps = [
        Wait(a),
        Put(a),
        Wait(b),
        Put(b),
        Ready(a),
        Wait(c),
        Put(c),
        Has(c),
        Lacks(b),
        Ready(a),
        Wait(b),
    ];
    run(&rt, alloc, 2, 64, Vec::new(alloc), &steps)
}

#[test]
fn one_place_serves_one_block_after_another(rt: HostRuntime) -> Result<(), Fail> {
    let alloc = rt.alloc();
    let (a, b) = (6, 7);
    let steps = [
        Wait(a),
        Hint(a),
        Put(a),
        Nothing,
        Hint(b),
        Wait(b),
        Put(b),
        Nothing,
        Lacks(a),
        Has(b),
        Wait(a),
        Put(a),
        Ready(a),
    ];
    run(&rt, alloc, 1, 1, Vec::new(alloc), &steps)
}

#[test]
fn a_failed_fetch_is_a_fault_only_where_it_is_waited_for(rt: HostRuntime) -> Result<(), Fail> {
    let alloc = rt.alloc();
    let (a, b) = (0, 1);
    let steps = [
        Hint(a),
        Hint(b),
        Dropped(a),
        Wait(a),
        Fault(a),
        Put(b),
        Wait(a),
        Put(a),
        Ready(b),
    ];
    run(&rt, alloc, 2, 2, vec![in alloc; 1, 2]?, &steps)
}

// A file of so many bytes, each of them 7.
fn sevens(alloc: Global, count: usize) -> Result<Vec<u8>, AllocError>
    requires { count < 2 ^ 20 }
    ensures { IfOk result (λ v. length v.items < 2 ^ 56) }
{
    vec![in alloc; 7; count]
}

// What comes of a fetch of a block of such a file, and the block's first and last byte.
fn fetched(alloc: Global, count: usize, block: u64) -> Result<(Finished, u8, u8), Fail>
    requires { count < 2 ^ 20 }
{
    let name = file_name()?;
    let mut store = MemStore::new(alloc, Vec::new(alloc));
    store.add(name, &sevens(alloc, count)?)?;
    let mut cache = Cache::new(alloc, 1, 1)?;
    let mut into = [9; 4096];
    let _ = cache.need(of(&name, block), &mut into);
    let finished = cache.finish(&mut store, &mut into);
    Ok((finished, into[0], into[4095]))
}

#[test]
fn the_block_behind_the_end_has_no_bytes(rt: HostRuntime) -> Result<(), Fail> {
    let name = file_name()?;
    let rows = [
        (0usize, 0u64, 0u8, 0u8),
        (4095, 0, 7, 0),
        (4096, 0, 7, 7),
        (4096, 1, 0, 0),
        (4097, 1, 7, 0),
        (8192, 1, 7, 7),
        (8192, 2, 0, 0),
        (8192, 9, 0, 0),
    ];
    for (count, block, first, last) in rows {
        assert!(rt; count < 1_048_576);
        assert_eq!(rt;
            fetched(rt.alloc(), count, block)?,
            (Finished::Put(of(&name, block)), first, last)
        );
    }
    Ok(())
}

// The pool of a cache of two blocks has three frames at most, so each block that leaves has to give
// its frame back.
#[test]
fn many_blocks_pass_through_two_places(rt: HostRuntime) -> Result<(), Fail> {
    let alloc = rt.alloc();
    let mut steps = Vec::new(alloc);
    for block in 0..40u64 {
        steps.push(Wait(block % 8))?;
        steps.push(Put(block % 8))?;
        steps.push(Ready(block % 8))?;
    }
    run(&rt, alloc, 2, 1, Vec::new(alloc), &steps)
}

// The lists of a cache, plainly.
#[derive(Drop)]
struct Lists {
    cached: Vec<u64>,
    queue: Vec<u64>,
    demanded: Option<u64>,
    calls: u64,
}

const BLOCKS: usize = 4;

const DEPTH: usize = 3;

impl Lists {
    fn hint(&mut self, block: u64) -> Result<Step, AllocError> {
        let in_flight = self.queue.contains(&block) || self.demanded == Some(block);
        if !in_flight && !self.cached.contains(&block) && self.queue.len() < DEPTH {
            self.queue.push(block)?;
        }
        Ok(Hint(block))
    }

    fn need(&mut self, block: u64) -> Result<Step, AllocError> {
        if self.cached.contains(&block) {
            self.cached.retain(|x| *x != block);
            self.cached.insert(0, block)?;
            return Ok(Ready(block));
        }
        self.queue.retain(|x| *x != block);
        self.demanded = Some(block);
        Ok(Wait(block))
    }

    fn next(&mut self) -> Option<(u64, bool)> {
        if let Some(block) = self.demanded.take() {
            return Some((block, true));
        }
        if self.queue.is_empty() {
            return None;
        }
        Some((self.queue.remove(0), false))
    }

    fn finish(&mut self) -> Result<Step, AllocError> {
        let Some((block, demanded)) = self.next() else {
            return Ok(Nothing);
        };
        self.calls = self.calls.wrapping_add(1);
        if self.calls % 7 == 0 {
            return Ok(if demanded {
                Fault(block)
            } else {
                Dropped(block)
            });
        }
        self.cached.insert(0, block)?;
        self.cached.truncate(BLOCKS);
        Ok(Put(block))
    }

    fn step(&mut self, random: u64) -> Result<Step, AllocError> {
        let block = random / 8 % 9;
        match random % 8 {
            0 | 1 | 2 => self.hint(block),
            3 | 4 if self.demanded.is_none() => self.need(block),
            5 if self.cached.contains(&block) => Ok(Has(block)),
            5 => Ok(Lacks(block)),
            _ => self.finish(),
        }
    }
}

fn steps_at_random(alloc: Global, count: usize) -> Result<Vec<Step>, AllocError> {
    let mut lists = Lists {
        cached: Vec::new(alloc),
        queue: Vec::new(alloc),
        demanded: None,
        calls: 0,
    };
    let mut steps = Vec::new(alloc);
    let mut random = 1u64;
    for _ in 0..count {
        random = random
            .wrapping_mul(6364136223846793005)
            .wrapping_add(1442695040888963407);
        steps.push(lists.step(random >> 33)?)?;
    }
    Ok(steps)
}

#[test]
fn a_long_run_agrees_with_plain_lists(rt: HostRuntime) -> Result<(), Fail> {
    let alloc = rt.alloc();
    let steps = steps_at_random(alloc, 10000)?;
    let fails = (1..2000u64).map(|n| 7 * n).collect(alloc)?;
    run(&rt, alloc, BLOCKS, DEPTH, fails, &steps)
}
