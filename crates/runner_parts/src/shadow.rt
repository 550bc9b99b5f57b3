//! What is asked of the shadow and of its memory.

ghost use Rattle.std.specs.Prelude.{◌≡◌, ◌&&◌};
ghost use Rattle.code_model.specs.Regions.{slots_in_use};
ghost use Rattle.run_model.specs.ShadowMoves.{is_arrival, is_running};
ghost use Rattle.hart_mem.specs.Held.{space_of};
ghost use Rattle.hart_step.specs.Core.{core_of};

use hart_mem::{Mem, Width};
use hart_step::Hart;
use spec_base::{HELPERS_START, LIST_START, Layout, SHADOW_START, ShadowState, View};

/// Whether the pc is word 1 of a block.
fn is_arrival(layout: &Layout, pc: u64) -> bool
    ensures { result ≡ is_arrival layout.now pc }
{
    pc % 64 == 4
        && pc < HELPERS_START
        && SHADOW_START <= pc
        && (pc.saturating_sub(SHADOW_START + 4) + 15) / 16
            <= layout.text_end.saturating_sub(layout.text_start)
}

/// Whether a shadow in this state runs.
pub fn runs(state: &ShadowState) -> bool
    ensures { result ≡ is_running state.now }
{
    matches!(state, ShadowState::Running)
}

/// Whether it runs, and stands at word 1 of a block.
pub fn arrives(state: &ShadowState, shadow: &Hart, mem: &Mem) -> bool
    ensures { result ≡ (is_running state.now && is_arrival (space_of mem.now).layout (core_of shadow.now).pc) }
{
    runs(state) && is_arrival(&mem.layout(), shadow.pc())
}

/// How many regions have copies.
pub fn regions_in_use(mem: &Mem) -> u64
    ensures { result ≡ slots_in_use (space_of mem.now).shared }
{
    mem.load(View::Shadow, LIST_START, Width::Eight).unwrap()
}
