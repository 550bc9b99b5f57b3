//! A restart of the shadow.

ghost use Rattle.std.specs.Prelude.{◌≡◌, ◌&&◌, ℕ};
ghost use Rattle.run_model.specs.OwnMoves.{restart_notes};
ghost use Rattle.program_model.specs.Descriptors.{Descriptors};
ghost use Rattle.file_calls.specs.Plans.{plan_shown, made};

use crate::notes::Notes;
use file_calls::PlannedCall;
use spec_base::Note;

/// Tells the read before which the shadow is restarted.
pub fn tell_restart(notes: &mut Notes, plan: &PlannedCall)
    ensures { (d : ℕ) (f : Descriptors) → notes.new ≡ restart_notes (plan_shown d (made f plan.now)) }
{
    match plan {
        PlannedCall::Read(spot, _) => notes.set(Note::Restart(*spot)),
        _ => notes.clear(),
    }
}

/// Whether both hold, where each is known already.
pub fn both(first: bool, second: bool) -> bool
    ensures { result ≡ (first && second) }
{
    first && second
}
