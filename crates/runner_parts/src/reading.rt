//! The bytes of a read among those of its blocks, and what is told of it.

ghost use Rattle.std.specs.Prelude.{◌≡◌, ◌≤◌, ◌<◌, ◌^◌, ◌%◌, pos, IsTrue, nat_lt, slice_get, length, take, drop};
ghost use Rattle.spec_base.specs.declared.note.Note.TheVariants as note;
ghost use Rattle.rv_model.specs.Memory.{all_from, written};
ghost use Rattle.rv_model.specs.Registers.{reg};
ghost use Rattle.rv_model.specs.Rights.{is_data};
ghost use Rattle.program_model.specs.Cache.{blocks_of};
ghost use Rattle.hart_mem.specs.Held.{space_of, spare_of};
ghost use Rattle.hart_step.specs.Core.{core_of};
ghost use Rattle.runner_parts.specs.OwnCalls.{told_read};
ghost use Rattle.runner_parts.specs.Parts.{demand_if};

use crate::assuming::call_note;
use crate::hinting::block_count;
use crate::notes::Notes;
use hart_mem::Mem;
use hart_step::Hart;
use spec_base::{BlockSpot, Note, ReadSpot};

/// The bytes of a read among those of its blocks.
pub fn bytes_of<'a>(spot: &ReadSpot, blocks: &'a [u8]) -> &'a [u8]
    requires { spot.now.count ≤ 65536 }
    ensures { result.now ≡ take spot.now.count (drop (spot.now.offset % 4096) blocks.now) }
{
    let start = blocks.len().min((spot.offset % 4096) as usize);
    let end = blocks.len().min(start + spot.count as usize);
    &blocks[start..end]
}

/// Fills memory, of which 17 pages are spare, with the bytes of a read among those of its blocks.
pub fn fill_staged(mem: &mut Mem, spot: &ReadSpot, address: u64, blocks: &[u8])
    requires spare { 17 ≤ spare_of mem.old }
    requires count { spot.now.count ≤ 65536 }
    requires data { IsTrue (all_from (is_data (space_of mem.old).layout) address spot.now.count) }
    ensures { space_of mem.new ≡ record (space_of mem.old) { program = written (space_of mem.old).program address (take spot.now.count (drop (spot.now.offset % 4096) blocks.now)) } }
{
    mem.fill(address, bytes_of(spot, blocks)).unwrap();
}

/// The block behind so many of a read, if it has one more.
pub fn block_behind(spot: &ReadSpot, had: u64) -> Option<BlockSpot>
    requires offset { spot.now.offset < 2 ^ 56 }
    requires count { spot.now.count ≤ 65536 }
    ensures { result ≡ demand_if (nat_lt had (length (blocks_of spot.now))) (slice_get (blocks_of spot.now) had) }
{
    if had < block_count(spot) {
        Some(BlockSpot {
            name: spot.name,
            block: spot.offset / 4096 + had,
        })
    } else {
        None
    }
}

/// Tells a read, for which the shadow was restarted or not, with the note of its call.
pub fn tell_read(notes: &mut Notes, asked: bool, spot: &ReadSpot, call: Note)
    ensures { notes.new ≡ told_read asked spot.now call }
{
    if asked {
        notes.set(call);
    } else {
        notes.set(Note::Match(*spot));
        notes.add(call);
    }
}

/// What is told of a call that is answered with this count.
pub fn count_note(hart: &Hart, count: u64) -> Note
    requires { count ≤ 65536 }
    ensures { result ≡ note.Call (reg (core_of hart.now).registers 17) (reg (core_of hart.now).registers 10) (reg (core_of hart.now).registers 11) (reg (core_of hart.now).registers 12) (pos count) }
{
    call_note(hart, &(count as i64))
}
