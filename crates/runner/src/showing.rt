//! What a runner tells of the run that it shows.

ghost use Rattle.std.specs.Prelude.{◌≡◌, ◌≤◌, max, OnOk, OnErr};
ghost use Rattle.run_model.specs.Run.{World, Run};
ghost use Rattle.word_laws.specs.Shown.{own_core};
ghost use Rattle.machine_laws.specs.OneMachine.{space_of_run};
ghost use Rattle.hart_mem.specs.Held.{space_of, spare_of};
ghost use Rattle.hart_step.specs.Core.{core_of};
ghost use Rattle.runner.specs.Shows.{Shows};

use crate::runner::Runner;
use file_calls::Files;
use hart_mem::Mem;
use hart_step::Hart;
use spec_base::{NoMemory, Note, ShadowState};

impl Runner {
    /// How many moves were made.
    pub fn moves(&self) -> u64
        ensures value { result ≡ self.now.counts.moves }
        ensures shows { (w : World) (r : Run) → Shows self.now w r → result ≡ r.moves }
    {
        self.counts.moves()
    }

    /// How many instructions the own hart has completed.
    pub fn own_done(&self) -> u64
        ensures { (w : World) (r : Run) → Shows self.now w r → result ≡ r.own_done }
    {
        self.counts.own_done()
    }

    /// How often the own hart came to wait.
    pub fn stalls(&self) -> u64
        ensures { (w : World) (r : Run) → Shows self.now w r → result ≡ r.stalls }
    {
        self.counts.stalls()
    }

    /// How often the shadow was restarted.
    pub fn restarts(&self) -> u64
        ensures { (w : World) (r : Run) → Shows self.now w r → result ≡ r.restarts }
    {
        self.counts.restarts()
    }

    /// How many reads were performed without a restart.
    pub fn matched(&self) -> u64
        ensures { (w : World) (r : Run) → Shows self.now w r → result ≡ r.matched }
    {
        self.counts.matched()
    }

    /// How many hints the shadow gave.
    pub fn hints(&self) -> u64
        ensures { (w : World) (r : Run) → Shows self.now w r → result ≡ r.hints }
    {
        self.counts.hints()
    }

    /// The most regions that were in use after a word of the shadow.
    pub fn regions_most(&self) -> u64
        ensures { (w : World) (r : Run) → Shows self.now w r → result ≡ r.regions_most }
    {
        self.counts.regions_most()
    }

    /// How many instructions the own hart has completed since the last restart, the restarting read
    /// first.
    pub fn own_since(&self) -> u64
        ensures { (w : World) (r : Run) → Shows self.now w r → result ≡ r.since.own }
    {
        self.counts.own_since()
    }

    /// How many blocks the shadow has arrived at since then.
    pub fn shadow_done(&self) -> u64
        ensures { (w : World) (r : Run) → Shows self.now w r → result ≡ r.since.shadow }
    {
        self.counts.shadow_since()
    }

    /// Whether the own hart has never been past the shadow since the last restart.
    pub fn ahead(&self) -> bool
        ensures { (w : World) (r : Run) → Shows self.now w r → result ≡ r.since.ahead }
    {
        self.ahead
    }

    /// Whether each put since the last restart was taken whole.
    pub fn whole(&self) -> bool
        ensures { (w : World) (r : Run) → Shows self.now w r → result ≡ r.since.whole }
    {
        self.whole
    }

    /// What the last move told.
    pub fn notes(&self) -> &[Note]
        ensures { (w : World) (r : Run) → Shows self.now w r → result.now ≡ r.notes }
    {
        self.notes.as_slice()
    }

    /// The bytes that the last move's put took.
    pub fn text(&self) -> &[u8]
        ensures { (w : World) (r : Run) → Shows self.now w r → result.now ≡ r.text }
    {
        &self.staging[..self.text.min(self.staging.len())]
    }

    /// What the shadow is doing.
    pub fn shadow(&self) -> ShadowState
        ensures { (w : World) (r : Run) → Shows self.now w r → result ≡ r.shadow.state }
    {
        self.state
    }

    /// The own hart.
    pub fn own(&self) -> &Hart
        ensures { (w : World) (r : Run) → Shows self.now w r → core_of result.now ≡ own_core r }
    {
        &self.own
    }

    /// The memory of both harts.
    pub fn mem(&self) -> &Mem
        ensures { (w : World) (r : Run) → Shows self.now w r → space_of result.now ≡ space_of_run w r }
    {
        &self.mem
    }

    /// The own descriptors.
    pub fn own_files(&self) -> &Files
        ensures { (w : World) (r : Run) → Shows self.now w r → result.now ≡ r.own.files }
    {
        &self.own_files
    }

    /// How many pages are spare.
    pub fn spare(&self) -> usize
        ensures { result ≡ spare_of self.now.mem }
    {
        self.mem.spare()
    }

    /// Sees to it that at least so many pages are spare. Where memory is wanting, nothing changes.
    pub fn reserve(&mut self, pages: usize) -> Result<(), NoMemory>
        requires { pages ≤ 17 }
        ensures shows { (w : World) (r : Run) → Shows self.old w r → Shows self.new w r }
        ensures ok { OnOk result (spare_of self.new.mem ≡ max (spare_of self.old.mem) pages) }
        ensures err { OnErr result (self.new ≡ self.old) }
        ensures counts { self.new.counts ≡ self.old.counts }
        ensures end { self.new.end ≡ self.old.end }
    {
        self.mem.reserve(pages)
    }
}
