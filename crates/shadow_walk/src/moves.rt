//! One word of the shadow.

ghost use Rattle.std.specs.Prelude.{◌≡◌, ◌≢◌};
ghost use Rattle.run_model.specs.Run.{World, Run};
ghost use Rattle.run_laws.specs.OwnLaws.{Accepted};
ghost use Rattle.hart_mem.specs.Held.{lacks_frame, space_of, spare_of};
ghost use Rattle.hart_step.specs.Core.{core_of};
ghost use Rattle.hart_step.specs.Step.{outcome, stepped, effect_here};
ghost use Rattle.word_laws.specs.Shown.{ShowsShadow};
ghost use Rattle.word_laws.specs.ShadowWords.{ShadowGoes};
ghost use Rattle.shadow_walk.specs.Shows.{MovesBy};

use hart_mem::Mem;
use hart_step::{Event, Hart, step};
use spec_base::View;

/// Steps a hart in the shadow's view. It is the shadow's move in every run of an accepted program
/// that hart and memory show.
///
/// `Done`, `Park` and `Trap` tell that the move is made; a trap parks the shadow. At `Key` and `Call`
/// it is left to the caller, who goes on by `Hart::answer`. No other event comes: a store of the
/// shadow never wants a frame, and takes none.
pub fn advance(hart: &mut Hart, mem: &mut Mem) -> Event
    requires shadow { (core_of hart.old).view ≡ View.Shadow }
    ensures outcome { outcome result (core_of hart.new) (space_of mem.new) ≡ stepped (lacks_frame (core_of hart.old).view mem.old) (effect_here (core_of hart.old) (space_of mem.old)) (core_of hart.old) (space_of mem.old) }
    ensures memory { result ≢ Event.Done → mem.new ≡ mem.old }
    ensures view { (core_of hart.new).view ≡ View.Shadow }
    ensures never_starved { result ≢ Event.NoMemory }
    ensures spare { spare_of mem.new ≡ spare_of mem.old }
    ensures goes { (w : World) (r : Run) → Accepted w → ShowsShadow w r (core_of hart.old) (space_of mem.old) →
        ShadowGoes result w r (core_of hart.new) (space_of mem.new) }
    ensures moves { (w : World) (r : Run) → Accepted w → ShowsShadow w r (core_of hart.old) (space_of mem.old) →
        MovesBy result w r (core_of hart.old) (space_of mem.old) (core_of hart.new) (space_of mem.new) }
{
    step(hart, mem)
}
