//! The own hart's reads.

ghost use Rattle.std.specs.Prelude.{◌≡◌, ◌≤◌, ◌<◌, ◌^◌, ℕ, None, Some, IsTrue, false, is_some, length};
ghost use Rattle.rv_model.specs.Memory.{all_from};
ghost use Rattle.rv_model.specs.Registers.{reg};
ghost use Rattle.rv_model.specs.Rights.{is_data};
ghost use Rattle.program_model.specs.Cache.{blocks_of};
ghost use Rattle.program_model.specs.Calls.{Read, bytes_read};
ghost use Rattle.run_model.specs.Run.{World, Run, Answer};
ghost use Rattle.run_model.specs.OwnMoves.{own_call_step};
ghost use Rattle.hart_mem.specs.Held.{space_of, spare_of};
ghost use Rattle.hart_step.specs.Core.{core_of};
ghost use Rattle.file_calls.specs.Plans.{ReadBounds};
ghost use Rattle.runner_parts.specs.Counts.{AreBelow, one_read};
ghost use Rattle.runner_parts.specs.OwnCalls.{IsAtPlan, gathered_on, gone_on, stall_told, read_filled, read_told};
ghost use Rattle.runner.specs.Shows.{Shows};

use crate::runner::Runner;
use runner_parts::{block_behind, count_note, fill_staged, need_rest, tell_read};
use spec_base::{BlockSpot, Note, ReadSpot};

impl Runner {
    // Needs the blocks of a read that it doesn't have yet, up to the first that isn't cached: the
    // answer, for which it waits then.
    fn gather(&mut self, spot: &ReadSpot) -> Option<BlockSpot>
        requires goes { self.old.stalled ≡ false }
        requires quiet { self.old.text ≡ 0 }
        requires offset { spot.now.offset < 2 ^ 56 }
        requires count { spot.now.count ≤ 65536 }
        ensures shows { (w : World) (r : Run) (d a : ℕ) → Shows self.old w r → IsAtPlan w r (Read d spot.now a) → Shows self.new w (gone_on result spot.now r) }
        ensures waits { (w : World) (r : Run) (d a : ℕ) → Shows self.old w r → IsAtPlan w r (Read d spot.now a) → (gathered_on r spot.now).waits ≡ is_some result }
        ensures demanded { result ≡ self.new.cache.demanded }
        ensures all { result ≡ None → self.new.gathered ≡ length (blocks_of spot.now) }
        ensures goes { self.new.stalled ≡ is_some result }
        ensures quiet { self.new.text ≡ 0 }
        ensures counts { self.new.counts ≡ self.old.counts }
        ensures kept { (self.new.mem ≡ self.old.mem) × (self.new.own ≡ self.old.own) × (self.new.own_files ≡ self.old.own_files) }
        ensures end { self.new.end ≡ self.old.end }
    {
        let had = need_rest(
            &mut self.cache,
            spot,
            self.gathered as u64,
            &mut self.staging,
        );
        let block = block_behind(spot, had);
        self.gathered = had as usize;
        self.stalled = block.is_some();
        block
    }

    // It waits for this block.
    fn stall(&mut self, block: BlockSpot)
        requires few { self.old.counts.stalls < self.old.counts.moves }
        ensures shows { (w : World) (r : Run) → Shows self.old w r → r.cache.demanded ≡ Some block → Shows self.new w (stall_told r) }
        ensures moves { self.new.counts.moves ≡ self.old.counts.moves }
        ensures end { self.new.end ≡ self.old.end }
    {
        self.counts.stall();
        self.notes.set(Note::Stall(block));
    }

    // The bytes of a read go from its blocks to memory.
    fn fill_read(&mut self, spot: &ReadSpot, address: u64)
        requires spare { 17 ≤ spare_of self.old.mem }
        requires count { spot.now.count ≤ 65536 }
        requires data { IsTrue (all_from (is_data (space_of self.old.mem).layout) address spot.now.count) }
        requires all { self.old.gathered ≡ length (blocks_of spot.now) }
        requires goes { self.old.stalled ≡ false }
        ensures shows { (w : World) (r : Run) (d : ℕ) → Shows self.old w r → IsAtPlan w r (Read d spot.now address) → length (bytes_read w.files spot.now) ≡ spot.now.count → Shows self.new w (read_filled w spot.now address r) }
        ensures kept { (self.new.counts ≡ self.old.counts) × (self.new.own ≡ self.old.own) × (self.new.own_files ≡ self.old.own_files) × (self.new.stalled ≡ self.old.stalled) }
        ensures end { self.new.end ≡ self.old.end }
    {
        fill_staged(&mut self.mem, spot, address, &self.staging);
        self.gathered = 0;
    }

    // A read is told and counted.
    fn count_read(&mut self, spot: &ReadSpot)
        requires few { self.old.counts.matched < self.old.counts.moves }
        requires count { spot.now.count ≤ 65536 }
        ensures shows { (w : World) (r : Run) → Shows self.old w r → Shows self.new w (read_told spot.now r) }
        ensures counts { self.new.counts ≡ one_read self.old.asked self.old.counts }
        ensures kept { (self.new.mem ≡ self.old.mem) × (self.new.own ≡ self.old.own) × (self.new.own_files ≡ self.old.own_files) × (self.new.stalled ≡ self.old.stalled) × (self.new.gathered ≡ self.old.gathered) }
        ensures end { self.new.end ≡ self.old.end }
    {
        let call = count_note(&self.own, spot.count);
        tell_read(&mut self.notes, self.asked, spot, call);
        self.counts.read(self.asked);
    }

    // HCALL 0 of a read: it waits for a block, or has them all and is performed.
    pub(crate) fn own_read(&mut self, spot: &ReadSpot, address: u64)
        requires begun { AreBelow self.old.counts }
        requires quiet { self.old.text ≡ 0 }
        requires goes { self.old.stalled ≡ false }
        requires spare { 17 ≤ spare_of self.old.mem }
        requires bounds { ReadBounds self.old.own_files (reg (core_of self.old.own).registers 10) spot.now }
        requires data { IsTrue (all_from (is_data (space_of self.old.mem).layout) address spot.now.count) }
        ensures shows { (w : World) (r : Run) (x : Answer) → Shows self.old w r → IsAtPlan w r (Read (reg r.own.registers 10) spot.now address)
            → length (bytes_read w.files spot.now) ≡ spot.now.count → Shows self.new w (own_call_step w x r (Read (reg r.own.registers 10) spot.now address)) }
        ensures moves { self.new.counts.moves ≡ self.old.counts.moves }
        ensures end { self.new.end ≡ self.old.end }
    {
        match self.gather(spot) {
            Some(block) => self.stall(block),
            None => {
                self.count_read(spot);
                self.fill_read(spot, address);
                self.answer_read(spot);
            }
        }
    }
}
