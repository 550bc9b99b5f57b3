//! Many words of the shadow at once.

ghost use Rattle.std.specs.Prelude.{◌≡◌, ◌≢◌, ◌+◌, ◌<◌, ◌≤◌, ◌^◌, None};
ghost use Rattle.spec_base.specs.declared.note.ShadowState.TheVariants.{Running};
ghost use Rattle.run_model.specs.Run.{World, Run};
ghost use Rattle.run_model.specs.Moves.{begun, run_from};
ghost use Rattle.run_model.specs.ShadowMoves.{arrived, parked, word_counted};
ghost use Rattle.run_laws.specs.OwnLaws.{Accepted};
ghost use Rattle.runner_parts.specs.Idle.{idle_for};
ghost use Rattle.runner.specs.ShadowGoes.{AreCounted};
ghost use Rattle.runner.specs.Shows.{Shows};
ghost use Rattle.runner.specs.Stretches.{MakesShadowWords, StopsShadow, shadow_moves};

use crate::runner::Runner;
use hart_step::{Event, shadow_steps};
use runner_parts::runs;
use spec_base::Park;

impl Runner {
    // Behind so many words one is made that leaves the shadow running.
    fn end_ahead(&mut self, words: u64)
        requires few { self.old.counts.moves + words < 2 ^ 63 }
        ensures shows { (w : World) (r : Run) → Shows self.old w r → Shows self.new w (word_counted (arrived w.image.layout (begun (idle_for words r)))) }
        ensures counted { AreCounted self.new }
        ensures moves { self.new.counts.moves ≡ self.old.counts.moves + words + 1 }
        ensures end { self.new.end ≡ self.old.end }
    {
        self.pass(words);
        self.begin();
        self.end_word();
    }

    // Behind so many words one is made that parks the shadow.
    fn park_ahead(&mut self, words: u64, cause: Park)
        requires few { self.old.counts.moves + words < 2 ^ 63 }
        ensures shows { (w : World) (r : Run) → Shows self.old w r → Shows self.new w (word_counted (parked (begun (idle_for words r)) cause)) }
        ensures counted { AreCounted self.new }
        ensures moves { self.new.counts.moves ≡ self.old.counts.moves + words + 1 }
        ensures end { self.new.end ≡ self.old.end }
    {
        self.pass(words);
        self.begin();
        self.park_word(cause);
    }

    // Makes the next words of a running shadow, at most so many: up to one behind which there is something to
    // count, or one that parks it, or up to an HKEY or an HCALL, which isn't made. Answers how many it made.
    fn stretch_ahead(&mut self, most: u64) -> u64
        requires few { self.old.counts.moves + most ≤ 2 ^ 63 }
        requires some { 0 < most }
        requires on { self.old.end ≡ None }
        requires runs { self.old.state ≡ Running }
        requires counted { 1 < most → AreCounted self.old }
        ensures most { result ≤ most }
        ensures makes { (w : World) (r : Run) → Accepted w → Shows self.old w r → MakesShadowWords result self.new w r }
        ensures stops { result ≡ 0 → (w : World) (r : Run) → Accepted w → Shows self.old w r → StopsShadow w r }
        ensures counted { result ≢ 0 → AreCounted self.new }
        ensures moves { self.new.counts.moves ≡ self.old.counts.moves + result }
        ensures end { self.new.end ≡ self.old.end }
    {
        let (words, told) = shadow_steps(&mut self.shadow, &mut self.mem, most);
        match told {
            Event::Done => {
                self.end_ahead(words - 1);
                words
            }
            Event::Park(cause) => {
                self.park_ahead(words, cause);
                words + 1
            }
            Event::Trap(_) => {
                self.park_ahead(words, Park::Fault);
                words + 1
            }
            _ => {
                self.pass(words);
                words
            }
        }
    }

    /// Makes moves of the shadow that are words, at most so many: up to one that parks it, which is the
    /// last, or up to an HKEY or an HCALL, which isn't made. Answers how many it made: fewer only where there
    /// is no further one. None is made where the run has ended, or the shadow isn't running.
    pub fn go_shadow(&mut self, most: u64) -> u64
        requires { self.old.counts.moves + most ≤ 2 ^ 63 }
        ensures most { result ≤ most }
        ensures makes { (w : World) (r : Run) → Accepted w → Shows self.old w r → MakesShadowWords result self.new w r }
        ensures stops { result < most → (w : World) (r : Run) → Accepted w → Shows self.old w r → StopsShadow w (run_from w r (shadow_moves result)) }
        ensures moves { self.new.counts.moves ≡ self.old.counts.moves + result }
        ensures end { self.new.end ≡ self.old.end }
    {
        if self.end.is_some() {
            return 0;
        }
        let mut made = 0;
        while made < most && runs(&self.state) {
            // Behind the first word the regions are counted.
            let few = if made == 0 { 1 } else { most - made };
            let words = self.stretch_ahead(few);
            if words == 0 {
                return made;
            }
            made += words;
        }
        made
    }
}
