//! Many words of the program at once.

ghost use Rattle.std.specs.Prelude.{◌≡◌, ◌+◌, ◌≤◌, ◌<◌, ◌^◌, true, false};
ghost use Rattle.program_model.specs.PlainRun.{State};
ghost use Rattle.run_model.specs.Run.{World, Run};
ghost use Rattle.run_model.specs.Moves.{begun, run_from};
ghost use Rattle.run_laws.specs.OwnLaws.{Accepted};
ghost use Rattle.runner_parts.specs.Parts.{IsAtRest, own_side};
ghost use Rattle.runner.specs.Shows.{Shows};
ghost use Rattle.runner.specs.Stretches.{IsInProgram, MakesOwnWords, StopsOwn, own_moves, words_done};

use crate::runner::Runner;
use hart_step::{Event, steps};
use runner_parts::both;
use spec_base::View;

// Whether it is that of the program.
fn is_program(view: View) -> bool
    ensures is { result ≡ true → view ≡ View.Program }
    ensures knows { view ≡ View.Program → result ≡ true }
{
    match view {
        View::Program => true,
        View::Plain | View::Stub | View::Shadow => false,
    }
}

impl Runner {
    // Whether the next move of the own hart is a word of the program.
    fn is_in_program(&self) -> bool
        ensures is { (w : World) (r : Run) → Shows self.now w r → result ≡ true → IsInProgram r }
        ensures knows { (w : World) (r : Run) → Shows self.now w r → IsInProgram r → result ≡ true }
    {
        self.end.is_none() && !self.stalled && is_program(self.own.view())
    }

    // So many instructions of the program are completed, each in a move.
    fn complete_words(&mut self, words: u64)
        requires { self.old.counts.moves + words ≤ 2 ^ 63 }
        ensures shows { (w : World) (r : Run) → Shows self.old w r → Shows self.new w (words_done words r) }
        ensures moves { self.new.counts.moves ≡ self.old.counts.moves + words }
        ensures end { self.new.end ≡ self.old.end }
        ensures own { (self.new.own ≡ self.old.own) × (self.new.mem ≡ self.old.mem) }
    {
        if words != 0 {
            self.fall_silent();
            self.counts.complete_many(words);
            self.ahead = both(self.ahead, self.counts.stays_behind());
        }
    }

    // A move in which the own hart has entered the stub, from any state.
    fn enter(&mut self)
        requires { self.old.counts.moves < 2 ^ 63 }
        ensures shows { (w : World) (r : Run) (gate : State) → Shows self.old w r → IsAtRest (own_side r) r.cache → Shows self.new w (record (begun r) { at_gate = gate; asked = false }) }
        ensures moves { self.new.counts.moves ≡ self.old.counts.moves + 1 }
        ensures end { self.new.end ≡ self.old.end }
    {
        self.begin();
        self.asked = false;
    }

    /// Makes moves of the own hart that are words of the program, at most so many: up to one that enters
    /// the stub, which is the last, or up to one that traps or wants a page, which isn't made. Answers
    /// how many it made: fewer only where there is no further one. None is made where the run has ended, or
    /// the own hart waits or is in the stub.
    pub fn go_own(&mut self, most: u64) -> u64
        requires { self.old.counts.moves + most ≤ 2 ^ 63 }
        ensures most { result ≤ most }
        ensures makes { (w : World) (r : Run) → Accepted w → Shows self.old w r → MakesOwnWords result self.new w r }
        ensures stops { result < most → (w : World) (r : Run) → Accepted w → Shows self.old w r → StopsOwn self.new w (run_from w r (own_moves result)) }
        ensures moves { self.new.counts.moves ≡ self.old.counts.moves + result }
        ensures end { self.new.end ≡ self.old.end }
    {
        if !self.is_in_program() {
            return 0;
        }
        let (done, told) = steps(&mut self.own, &mut self.mem, most);
        self.complete_words(done);
        match told {
            Event::Gate => {
                self.enter();
                done + 1
            }
            _ => done,
        }
    }
}
