//! HRESTART.

ghost use Rattle.std.specs.Prelude.{◌≡◌};
ghost use Rattle.run_model.specs.Run.{World, Run};
ghost use Rattle.mark_laws.specs.Sizes.{TrueSizes};
ghost use Rattle.word_laws.specs.OwnWords.{restarted_from};
ghost use Rattle.runner_parts.specs.Counts.{AreBelow};
ghost use Rattle.runner_parts.specs.Parts.{IsAtRest, own_side};
ghost use Rattle.runner.specs.Shows.{Shows};

use crate::runner::Runner;
use assembler::place::RESTART;
use runner_parts::{plan_of_own, tell_restart};
use spec_base::{HELPERS_START, ShadowState};

impl Runner {
    // HRESTART, with the own hart behind it: the shadow gets the own descriptors, and runs.
    pub(crate) fn restart(&mut self)
        requires begun { AreBelow self.old.counts }
        ensures shows { (w : World) (r : Run) → Shows self.old w r → IsAtRest (own_side r) r.cache → TrueSizes w.files r.own.files → Shows self.new w (restarted_from w r) }
        ensures moves { self.new.counts.moves ≡ self.old.counts.moves }
        ensures end { self.new.end ≡ self.old.end }
    {
        let plan = plan_of_own(&self.own, &self.own_files, &self.mem);
        self.shadow_files = self.own_files;
        self.shadow.set_pc(HELPERS_START + RESTART);
        self.state = ShadowState::Running;
        self.asked = true;
        self.counts.restart();
        self.ahead = true;
        self.whole = true;
        tell_restart(&mut self.notes, &plan);
    }
}
