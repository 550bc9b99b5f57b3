//! The own hart's calls that neither read nor write.

ghost use Rattle.std.specs.Prelude.{◌≡◌, ◌<◌, ◌∷◌, [], false, None, Some};
ghost use Rattle.spec_base.specs.Files.{Files as Contents};
ghost use Rattle.run_model.specs.Run.{World, Run, Answer};
ghost use Rattle.run_model.specs.OwnMoves.{own_call_step};
ghost use Rattle.program_model.specs.Calls.{Set, Look as Looks, Exit};
ghost use Rattle.world_io.specs.Outside.{SinkState};
ghost use Rattle.world_io.specs.Logs.{StoreLog};
ghost use Rattle.world_io.specs.Looks.{look_failed};
ghost use Rattle.file_calls.specs.Plans.{changed, KeepsBreak};
ghost use Rattle.runner_parts.specs.Answers.{failed_if};
ghost use Rattle.runner_parts.specs.Heard.{said_by_look, AreTrueOf};
ghost use Rattle.runner_parts.specs.OwnCalls.{call_told};
ghost use Rattle.runner.specs.Causes.{IsCaused};
ghost use Rattle.runner.specs.ShadowGoes.{beside};
ghost use Rattle.runner.specs.Shows.{Shows};

use crate::runner::Runner;
use file_calls::Change;
use file_calls::errno::ENOENT;
use runner_parts::{End, call_note};
use spec_base::{Name, Note};
use world_io::{Look, Store};

impl Runner {
    // The call is told with this answer.
    fn tell_call(&mut self, value: &i64)
        ensures shows { (w : World) (r : Run) → Shows self.old w r → Shows self.new w (call_told value.now r) }
        ensures counts { self.new.counts ≡ self.old.counts }
        ensures kept { (self.new.stalled ≡ self.old.stalled) × (self.new.own_files ≡ self.old.own_files) }
        ensures end { self.new.end ≡ self.old.end }
    {
        let call = call_note(&self.own, value);
        self.notes.set(call);
    }

    // HCALL 0 of a call whose answer is known.
    pub(crate) fn own_set(&mut self, change: &Change, value: &i64)
        requires goes { self.old.stalled ≡ false }
        requires kept { KeepsBreak self.old.own_files change.now }
        requires few { self.old.counts.own_done < self.old.counts.moves }
        requires since { self.old.counts.own_since < self.old.counts.moves }
        ensures shows { (w : World) (r : Run) (x : Answer) → Shows self.old w r → Shows self.new w (own_call_step w x r (Set (changed r.own.files change.now) value.now)) }
        ensures moves { self.new.counts.moves ≡ self.old.counts.moves }
        ensures end { self.new.end ≡ self.old.end }
    {
        self.tell_call(value);
        self.answer_own(change, value);
    }

    // HCALL 0 of an open: one look. Where the store fails the run is over.
    pub(crate) fn own_look<D: Store>(&mut self, name: &Name, store: &mut D) -> Look
        requires on { self.old.end ≡ None }
        requires goes { self.old.stalled ≡ false }
        requires few { self.old.counts.own_done < self.old.counts.moves }
        requires since { self.old.counts.own_since < self.old.counts.moves }
        ensures told { (files : Contents) → (D.state store.old).files ≡ Some files → AreTrueOf files (said_by_look name.now result) }
        ensures log { StoreLog (D.state store.old) (look_failed result ∷ []) (D.state store.new) }
        ensures shows { (w : World) (r : Run) → Shows self.old w r → AreTrueOf w.files (said_by_look name.now result)
            → Shows self.new w (own_call_step w (failed_if (look_failed result)) r (Looks name.now)) }
        ensures moves { self.new.counts.moves ≡ self.old.counts.moves }
        ensures caused { (out err : SinkState) → IsCaused self.new.end (beside (D.state store.old) out err) (beside (D.state store.new) out err) }
    {
        match store.look(name) {
            Look::Found(size) => {
                let after = self.own_files.found(*name, size);
                self.own_set(&after.0, &after.1);
                Look::Found(size)
            }
            Look::Absent => {
                self.own_set(&Change::Nothing, &ENOENT);
                Look::Absent
            }
            Look::Failed => {
                self.stop(End::Store, Note::Fault);
                Look::Failed
            }
        }
    }

    // HCALL 0 of an exit.
    pub(crate) fn own_exit(&mut self, code: u8)
        requires on { self.old.end ≡ None }
        requires goes { self.old.stalled ≡ false }
        requires few { self.old.counts.own_done < self.old.counts.moves }
        requires since { self.old.counts.own_since < self.old.counts.moves }
        ensures shows { (w : World) (r : Run) (x : Answer) → Shows self.old w r → Shows self.new w (own_call_step w x r (Exit code)) }
        ensures moves { self.new.counts.moves ≡ self.old.counts.moves }
        ensures end { self.new.end ≡ Some (End.Exit code) }
    {
        self.gathered = 0;
        self.complete();
        self.stop(End::Exit(code), Note::Exit(code));
    }
}
