//! The words of the shadow.

ghost use Rattle.std.specs.Prelude.{◌≡◌, ◌≢◌, ◌<◌, None};
ghost use Rattle.spec_base.specs.declared.note.ShadowState.TheVariants.{Running};
ghost use Rattle.program_model.specs.Calls.{key_of};
ghost use Rattle.run_model.specs.Run.{World, Run};
ghost use Rattle.run_model.specs.ShadowMoves.{arrived, parked, word_counted, shadow_at, shadow_plan};
ghost use Rattle.run_laws.specs.OwnLaws.{Accepted};
ghost use Rattle.rv_model.specs.Effect.{after};
ghost use Rattle.rv_model.specs.Registers.{with_reg};
ghost use Rattle.runner.specs.ShadowGoes.{AreCounted, StepsTo, WordTold};
ghost use Rattle.runner.specs.Shows.{Shows};

use crate::runner::Runner;
use hart_step::Event;
use runner_parts::{arrives, key_of_shadow, regions_in_use};
use shadow_walk::advance;
use spec_base::{Note, Park, Reg, ShadowState};

impl Runner {
    // The shadow parks.
    pub(crate) fn park(&mut self, cause: Park)
        ensures shows { (w : World) (r : Run) → Shows self.old w r → Shows self.new w (parked r cause) }
        ensures counts { self.new.counts ≡ self.old.counts }
        ensures mem { self.new.mem ≡ self.old.mem }
        ensures end { self.new.end ≡ self.old.end }
    {
        self.state = ShadowState::Parked(cause);
        self.notes.set(Note::Park(cause));
    }

    // A word of the shadow is made, and it may have arrived at a block.
    pub(crate) fn arrive(&mut self)
        requires since { self.old.counts.shadow_since < self.old.counts.moves }
        ensures shows { (w : World) (r : Run) → Shows self.old w r → Shows self.new w (arrived w.image.layout r) }
        ensures moves { self.new.counts.moves ≡ self.old.counts.moves }
        ensures end { self.new.end ≡ self.old.end }
    {
        if arrives(&self.state, &self.shadow, &self.mem) {
            self.counts.arrive();
        }
    }

    // A word is counted.
    pub(crate) fn count_word(&mut self)
        ensures shows { (w : World) (r : Run) → Shows self.old w r → Shows self.new w (word_counted r) }
        ensures counted { AreCounted self.new }
        ensures state { self.new.state ≡ self.old.state }
        ensures moves { self.new.counts.moves ≡ self.old.counts.moves }
        ensures end { self.new.end ≡ self.old.end }
    {
        self.counts.use_regions(regions_in_use(&self.mem));
    }

    // A word of the shadow ends.
    pub(crate) fn end_word(&mut self)
        requires since { self.old.counts.shadow_since < self.old.counts.moves }
        ensures shows { (w : World) (r : Run) → Shows self.old w r → Shows self.new w (word_counted (arrived w.image.layout r)) }
        ensures counted { AreCounted self.new }
        ensures moves { self.new.counts.moves ≡ self.old.counts.moves }
        ensures end { self.new.end ≡ self.old.end }
    {
        self.arrive();
        self.count_word();
    }

    // A word of the shadow ends by parking it.
    pub(crate) fn park_word(&mut self, cause: Park)
        ensures shows { (w : World) (r : Run) → Shows self.old w r → Shows self.new w (word_counted (parked r cause)) }
        ensures counted { AreCounted self.new }
        ensures moves { self.new.counts.moves ≡ self.old.counts.moves }
        ensures end { self.new.end ≡ self.old.end }
    {
        self.park(cause);
        self.count_word();
    }

    // HKEY: the register gets the key of the planned call.
    fn key(&mut self, rd: Reg)
        ensures shows { (w : World) (r : Run) → Shows self.old w r → Shows self.new w (shadow_at r (with_reg r.shadow.registers rd (key_of (shadow_plan w r))) (after r.shadow.pc)) }
        ensures counts { self.new.counts ≡ self.old.counts }
        ensures end { self.new.end ≡ self.old.end }
    {
        let key = key_of_shadow(&self.shadow, &self.shadow_files, &self.mem);
        self.shadow.answer(rd, key);
    }

    // The hart's step.
    fn step_shadow(&mut self) -> Event
        ensures steps { (w : World) (r : Run) → Accepted w → Shows self.old w r → r.shadow.state ≡ Running → StepsTo result self.new w r }
        ensures kept { (self.new.counts ≡ self.old.counts) × (self.new.notes ≡ self.old.notes) }
        ensures end { self.new.end ≡ self.old.end }
    {
        advance(&mut self.shadow, &mut self.mem)
    }

    // A word of a running shadow, unless it is a call, which is left to be assumed.
    pub(crate) fn shadow_word(&mut self) -> Option<bool>
        requires since { self.old.counts.shadow_since < self.old.counts.moves }
        ensures word { (w : World) (r : Run) → Accepted w → Shows self.old w r → r.shadow.state ≡ Running → WordTold result self.new w r }
        ensures moves { self.new.counts.moves ≡ self.old.counts.moves }
        ensures kept { result ≢ None → (self.new.counts ≡ self.old.counts) × (self.new.notes ≡ self.old.notes) }
        ensures end { self.new.end ≡ self.old.end }
    {
        match self.step_shadow() {
            Event::Done => {
                self.end_word();
                None
            }
            Event::Park(cause) => {
                self.park_word(cause);
                None
            }
            Event::Key(rd) => {
                self.key(rd);
                self.end_word();
                None
            }
            Event::Call(unhinted) => Some(unhinted),
            Event::Trap(_) => {
                self.park_word(Park::Fault);
                None
            }
            // No other event comes.
            _ => None,
        }
    }
}
