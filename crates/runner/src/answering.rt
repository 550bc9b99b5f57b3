//! The answers of the own hart's calls.

ghost use Rattle.std.specs.Prelude.{◌≡◌, ◌<◌, ◌≤◌, ◌∷◌, [], pos, false, None, Some};
ghost use Rattle.rv_model.specs.Registers.{reg, with_reg};
ghost use Rattle.rv_model.specs.Effect.{after};
ghost use Rattle.spec_base.specs.Word.{word_of_int};
ghost use Rattle.run_model.specs.Run.{World, Run};
ghost use Rattle.run_model.specs.OwnMoves.{done_one, ended};
ghost use Rattle.hart_step.specs.Core.{core_of};
ghost use Rattle.file_calls.specs.Plans.{changed, KeepsBreak, ReadBounds};
ghost use Rattle.runner_parts.specs.Counts.{one_done};
ghost use Rattle.runner_parts.specs.OwnCalls.{call_answered, read_answered};
ghost use Rattle.runner_parts.specs.Parts.{run_end};
ghost use Rattle.runner.specs.Shows.{Shows};

use crate::runner::Runner;
use file_calls::Change;
use hart_step::Hart;
use runner_parts::{End, argument, both, word_of};
use spec_base::{Note, ReadSpot, Reg};

// Answers a call, and goes on behind it.
fn answer(hart: &mut Hart, value: &i64)
    ensures { core_of hart.new ≡ record (core_of hart.old) { registers = with_reg (core_of hart.old).registers 10 (word_of_int value.now); pc = after (core_of hart.old).pc } }
{
    hart.answer(Reg::from_low_bits(10), word_of(value));
}

// Answers a call with a count.
fn answer_with(hart: &mut Hart, count: u64)
    requires { count ≤ 65536 }
    ensures { core_of hart.new ≡ record (core_of hart.old) { registers = with_reg (core_of hart.old).registers 10 (word_of_int (pos count)); pc = after (core_of hart.old).pc } }
{
    answer(hart, &(count as i64));
}

impl Runner {
    // An instruction is completed.
    pub(crate) fn complete(&mut self)
        requires few { self.old.counts.own_done < self.old.counts.moves }
        requires since { self.old.counts.own_since < self.old.counts.moves }
        ensures shows { (w : World) (r : Run) → Shows self.old w r → Shows self.new w (done_one r r.own) }
        ensures counts { self.new.counts ≡ one_done self.old.counts }
        ensures end { self.new.end ≡ self.old.end }
    {
        self.counts.complete();
        self.ahead = both(self.ahead, self.counts.stays_behind());
    }

    // The run ends, and tells this.
    pub(crate) fn stop(&mut self, end: End, note: Note)
        requires goes { self.old.end ≡ None }
        ensures shows { (w : World) (r : Run) → Shows self.old w r → Shows self.new w (ended r (run_end end) (note ∷ [])) }
        ensures moves { self.new.counts.moves ≡ self.old.counts.moves }
        ensures end { self.new.end ≡ Some end }
    {
        self.end = Some(end);
        self.notes.set(note);
    }

    // A call is completed with this change of the descriptors and this answer.
    pub(crate) fn answer_own(&mut self, change: &Change, value: &i64)
        requires goes { self.old.stalled ≡ false }
        requires kept { KeepsBreak self.old.own_files change.now }
        requires few { self.old.counts.own_done < self.old.counts.moves }
        requires since { self.old.counts.own_since < self.old.counts.moves }
        ensures shows { (w : World) (r : Run) → Shows self.old w r → Shows self.new w (call_answered (changed r.own.files change.now) value.now r) }
        ensures moves { self.new.counts.moves ≡ self.old.counts.moves }
        ensures end { self.new.end ≡ self.old.end }
    {
        self.own_files.make(*change);
        answer(&mut self.own, value);
        self.gathered = 0;
        self.complete();
    }

    // A write is completed with this count.
    pub(crate) fn answer_count(&mut self, count: u64)
        requires small { count ≤ 65536 }
        requires goes { self.old.stalled ≡ false }
        requires few { self.old.counts.own_done < self.old.counts.moves }
        requires since { self.old.counts.own_since < self.old.counts.moves }
        ensures shows { (w : World) (r : Run) → Shows self.old w r → Shows self.new w (call_answered r.own.files (pos count) r) }
        ensures moves { self.new.counts.moves ≡ self.old.counts.moves }
        ensures end { self.new.end ≡ self.old.end }
    {
        self.answer_own(&Change::Nothing, &(count as i64));
    }

    // A read is completed with its count, by which the offset has moved on.
    pub(crate) fn answer_read(&mut self, spot: &ReadSpot)
        requires bounds { ReadBounds self.old.own_files (reg (core_of self.old.own).registers 10) spot.now }
        requires goes { self.old.stalled ≡ false }
        requires few { self.old.counts.own_done < self.old.counts.moves }
        requires since { self.old.counts.own_since < self.old.counts.moves }
        ensures shows { (w : World) (r : Run) → Shows self.old w r → Shows self.new w (read_answered spot.now r) }
        ensures moves { self.new.counts.moves ≡ self.old.counts.moves }
        ensures end { self.new.end ≡ self.old.end }
    {
        let descriptor = argument(&self.own, 10);
        self.own_files.read_on(descriptor, spot.count);
        answer_with(&mut self.own, spot.count);
        self.gathered = 0;
        self.complete();
    }
}
