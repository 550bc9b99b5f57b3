//! The own hart's writes.

ghost use Rattle.std.specs.Prelude.{◌≡◌, ◌≤◌, ◌<◌, IsTrue, ℕ, false, None, take};
ghost use Rattle.rv_model.specs.Memory.{all_from, bytes_at};
ghost use Rattle.rv_model.specs.Data.{data_in, memory_in};
ghost use Rattle.run_model.specs.Run.{World, Run};
ghost use Rattle.run_model.specs.OwnMoves.{own_call_step};
ghost use Rattle.program_model.specs.Calls.{Write};
ghost use Rattle.hart_mem.specs.Held.{space_of, data_byte};
ghost use Rattle.runner_parts.specs.OwnCalls.{IsAtPlan, text_told, put_answer, TakesSome, Offers};
ghost use Rattle.runner_parts.specs.Parts.{own_side, IsAtRest};
ghost use Rattle.world_io.specs.Outside.{StoreState};
ghost use Rattle.runner.specs.Causes.{IsCaused};
ghost use Rattle.runner.specs.Shows.{Shows};

use crate::runner::Runner;
use runner_parts::{End, count_note, put_through, still_whole, tell_put};
use world_io::{Put, Sink};

impl Runner {
    // Offers bytes of the program's memory.
    fn offer<O: Sink, E: Sink>(
        &mut self,
        to_out: bool,
        address: u64,
        count: usize,
        out: &mut O,
        err: &mut E,
    ) -> Put
        requires some { 0 < count }
        requires few { count ≤ 65536 }
        requires data { IsTrue (all_from (data_in (data_byte (space_of self.old.mem))) address count) }
        requires quiet { self.old.text ≡ 0 }
        ensures shows { (w : World) (r : Run) → Shows self.old w r → IsAtRest (own_side r) r.cache → Shows self.new w r }
        ensures bytes { (w : World) (r : Run) → Shows self.old w r → take count self.new.staging.items ≡ bytes_at r.own.memory address count }
        ensures offers { (w : World) (r : Run) → Shows self.old w r → Offers to_out (bytes_at r.own.memory address count) (O.state out.old) (E.state err.old) result (O.state out.new) (E.state err.new) }
        ensures taken { TakesSome count result }
        ensures counts { self.new.counts ≡ self.old.counts }
        ensures kept { (self.new.own_files ≡ self.old.own_files) × (self.new.stalled ≡ self.old.stalled) × (self.new.end ≡ self.old.end) }
        ensures puts { Offers to_out (bytes_at (memory_in (data_byte (space_of self.old.mem))) address count) (O.state out.old) (E.state err.old) result (O.state out.new) (E.state err.new) }
    {
        put_through(
            &self.mem,
            to_out,
            address,
            count,
            &mut self.staging,
            out,
            err,
        )
    }

    // Tells a put that took so many bytes of these.
    fn tell_write(&mut self, to_out: bool, taken: usize, count: usize)
        requires few { taken ≤ 65536 }
        requires within { taken ≤ count }
        ensures shows { (w : World) (r : Run) → (address : ℕ) → Shows self.old w r → take count self.old.staging.items ≡ bytes_at r.own.memory address count → Shows self.new w (text_told to_out taken address count r) }
        ensures counts { self.new.counts ≡ self.old.counts }
        ensures kept { (self.new.own_files ≡ self.old.own_files) × (self.new.stalled ≡ self.old.stalled) }
        ensures end { self.new.end ≡ self.old.end }
    {
        let call = count_note(&self.own, taken as u64);
        tell_put(&mut self.notes, to_out, taken, call);
        self.whole = still_whole(self.whole, taken, count, self.counts.never_restarted());
        self.text = taken;
    }

    // HCALL 0 of a write: one put. Where it fails the run is over.
    pub(crate) fn own_write<O: Sink, E: Sink>(
        &mut self,
        to_out: bool,
        address: u64,
        count: usize,
        out: &mut O,
        err: &mut E,
    ) -> Put
        requires some { 0 < count }
        requires small { count ≤ 65536 }
        requires data { IsTrue (all_from (data_in (data_byte (space_of self.old.mem))) address count) }
        requires quiet { self.old.text ≡ 0 }
        requires goes { self.old.stalled ≡ false }
        requires on { self.old.end ≡ None }
        requires few { self.old.counts.own_done < self.old.counts.moves }
        requires since { self.old.counts.own_since < self.old.counts.moves }
        ensures shows { (w : World) (r : Run) → Shows self.old w r → IsAtPlan w r (Write to_out address count) → Shows self.new w (own_call_step w (put_answer result) r (Write to_out address count)) }
        ensures offers { (w : World) (r : Run) → Shows self.old w r → Offers to_out (bytes_at r.own.memory address count) (O.state out.old) (E.state err.old) result (O.state out.new) (E.state err.new) }
        ensures taken { TakesSome count result }
        ensures moves { self.new.counts.moves ≡ self.old.counts.moves }
        ensures caused { (store : StoreState) → IsCaused self.new.end (record { store = store; out = O.state out.old; err = E.state err.old }) (record { store = store; out = O.state out.new; err = E.state err.new }) }
    {
        let put = self.offer(to_out, address, count, out, err);
        match put {
            Put::Took(taken) => {
                self.tell_write(to_out, taken, count);
                self.answer_count(taken as u64);
            }
            Put::Failed => {
                self.end = Some(End::Sink);
                self.notes.clear();
            }
        }
        put
    }
}
