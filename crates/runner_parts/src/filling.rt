//! A shadow's read is filled into copies.

ghost use Rattle.std.specs.Prelude.{◌≡◌, ◌-◌, ◌<◌, ◌≤◌, ◌^◌, ◌%◌, IsTrue, length, take, drop};
ghost use Rattle.spec_base.specs.Files.{Files};
ghost use Rattle.code_model.specs.Tables.{AreConsistent};
ghost use Rattle.rv_model.specs.Memory.{all_from};
ghost use Rattle.rv_model.specs.Rights.{is_data};
ghost use Rattle.program_model.specs.Calls.{bytes_read};
ghost use Rattle.hart_mem.specs.Held.{space_of, spare_of};
ghost use Rattle.cow_regions.specs.Fills.{regions_fit};
ghost use Rattle.cache_queue.specs.State.{lists};
ghost use Rattle.cache_queue.specs.Finishes.{TrueTo};
ghost use Rattle.runner_parts.specs.Fillings.{can_fill, filled_if, fill_notes};

use crate::gathering::peek_all;
use crate::notes::Notes;
use crate::reading::bytes_of;
use cache_queue::Cache;
use cow_regions::{Fitted, fill_copies};
use hart_mem::Mem;
use spec_base::{Note, ReadSpot};

/// Fills the bytes of a read, among those of its blocks, into copies, and tells it, where its new
/// regions fit beside those in use. Else nothing changes.
fn fill_told(mem: &mut Mem, notes: &mut Notes, spot: &ReadSpot, address: u64, blocks: &[u8])
    requires some { 0 < spot.now.count }
    requires count { spot.now.count ≤ 65536 }
    requires data { IsTrue (all_from (is_data (space_of mem.old).layout) address spot.now.count) }
    requires told { length notes.old < 2 }
    requires room { length blocks.now ≡ 69632 }
    ensures filled { AreConsistent (space_of mem.old).layout (space_of mem.old).shared
        → space_of mem.new ≡ filled_if (regions_fit (space_of mem.old) address (spot.now.count - 1)) (space_of mem.old) address (take spot.now.count (drop (spot.now.offset % 4096) blocks.now)) }
    ensures tells { notes.new ≡ fill_notes (regions_fit (space_of mem.old) address (spot.now.count - 1)) spot.now notes.old }
    ensures spare { spare_of mem.new ≡ spare_of mem.old }
{
    match fill_copies(mem, address, bytes_of(spot, blocks)) {
        Fitted::Done => notes.add(Note::Fill(*spot)),
        Fitted::Full => {}
    }
}

/// Fills a read of some bytes into copies, and tells it, where all its blocks are cached and its new
/// regions fit beside those in use. Its blocks go through a buffer.
pub fn fill_held(
    cache: &Cache,
    mem: &mut Mem,
    notes: &mut Notes,
    spot: &ReadSpot,
    address: u64,
    buffer: &mut [u8],
)
    requires some { 0 < spot.now.count }
    requires offset { spot.now.offset < 2 ^ 56 }
    requires count { spot.now.count ≤ 65536 }
    requires data { IsTrue (all_from (is_data (space_of mem.old).layout) address spot.now.count) }
    requires told { length notes.old < 2 }
    requires room { length buffer.old ≡ 69632 }
    ensures filled { (files : Files) → TrueTo files cache.now.blocks → length (bytes_read files spot.now) ≡ spot.now.count → AreConsistent (space_of mem.old).layout (space_of mem.old).shared
        → space_of mem.new ≡ filled_if (can_fill (lists cache.now) (space_of mem.old) spot.now address (spot.now.count - 1)) (space_of mem.old) address (bytes_read files spot.now) }
    ensures tells { notes.new ≡ fill_notes (can_fill (lists cache.now) (space_of mem.old) spot.now address (spot.now.count - 1)) spot.now notes.old }
    ensures spare { spare_of mem.new ≡ spare_of mem.old }
{
    if peek_all(cache, spot, buffer) {
        fill_told(mem, notes, spot, address, buffer);
    }
}
