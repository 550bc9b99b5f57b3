//! Reading a file.

ghost use Rattle.std.specs.Prelude.{◌≡◌, ◌≤◌, ◌<◌, ◌%◌, ◌^◌, IsTrue, length, take, drop};
ghost use Rattle.rv_model.specs.Memory.{all_from};
ghost use Rattle.rv_model.specs.Registers.{reg};
ghost use Rattle.rv_model.specs.Rights.{is_data};
ghost use Rattle.program_model.specs.Cache.{blocks_of};
ghost use Rattle.program_model.specs.Descriptors.{slot};
ghost use Rattle.hart_mem.specs.Held.{space_of, spare_of};
ghost use Rattle.hart_step.specs.Core.{core_of};
ghost use Rattle.file_calls.specs.Plans.{ReadBounds};
ghost use Rattle.plain_runner.specs.Outcomes.{FetchesTo, ReadComesTo};

use crate::answering::{answer, argument};
use crate::ending::Ending;
use file_calls::Files;
use hart_mem::Mem;
use hart_step::Hart;
use spec_base::ReadSpot;
use world_io::{BLOCK, Fetch, Store};

/// How many blocks hold a byte of the read.
fn block_count(spot: &ReadSpot) -> u64
    requires offset { spot.now.offset < 2 ^ 56 }
    requires count { spot.now.count ≤ 65536 }
    ensures count { result ≡ length (blocks_of spot.now) }
    ensures few { result ≤ 17 }
{
    if spot.count == 0 {
        return 0;
    }
    (spot.offset + (spot.count - 1)) / 4096 - spot.offset / 4096 + 1
}

/// Fetches the blocks that hold a byte of the read, ascending, to the front of a buffer of 17 blocks,
/// one after the other, and answers how many bytes came. None where a fetch failed.
fn fetch_blocks<S: Store>(store: &mut S, spot: &ReadSpot, into: &mut [u8]) -> Option<usize>
    requires offset { spot.now.offset < 2 ^ 56 }
    requires count { spot.now.count ≤ 65536 }
    requires room { length into.old ≡ 69632 }
    ensures { FetchesTo spot.now (S.state store.old) result into.new (S.state store.new) }
{
    let first = spot.offset / 4096;
    let mut had = 0;
    for index in 0..block_count(spot) {
        match store.fetch(&spot.name, first + index, &mut into[had..had + BLOCK]) {
            Fetch::Got(count) => had += count,
            Fetch::Failed => return None,
        }
    }
    Some(had)
}

/// The bytes of the read among those of its blocks.
fn bytes_of<'a>(spot: &ReadSpot, blocks: &'a [u8]) -> &'a [u8]
    requires { spot.now.count ≤ 65536 }
    ensures { result.now ≡ take spot.now.count (drop (spot.now.offset % 4096) blocks.now) }
{
    let start = blocks.len().min((spot.offset % 4096) as usize);
    let end = blocks.len().min(start + spot.count as usize);
    &blocks[start..end]
}

/// Reads a part of a file to an address, in memory of which 17 pages are spare. Its blocks are
/// fetched to a buffer of 17 blocks, and memory is filled after the last one.
pub fn read<S: Store>(
    hart: &mut Hart,
    mem: &mut Mem,
    files: &mut Files,
    buffer: &mut [u8],
    spot: &ReadSpot,
    address: u64,
    store: &mut S,
) -> Option<Ending>
    requires bounds { ReadBounds files.old (reg (core_of hart.old).registers 10) spot.now }
    requires data { IsTrue (all_from (is_data (space_of mem.old).layout) address spot.now.count) }
    requires spare { 17 ≤ spare_of mem.old }
    requires room { length buffer.old ≡ 69632 }
    ensures { ReadComesTo (reg (core_of hart.old).registers 10) spot.now address (S.state store.old) (core_of hart.old) (space_of mem.old) files.old
        result (S.state store.new) (core_of hart.new) (space_of mem.new) files.new }
{
    let Some(had) = fetch_blocks(store, spot, buffer) else {
        return Some(Ending::StoreFault);
    };
    mem.fill(address, bytes_of(spot, &buffer[..had])).unwrap();
    files.read_on(argument(hart, 10), spot.count);
    answer(hart, spot.count);
    None
}
