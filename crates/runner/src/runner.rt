//! The runner: two harts over one memory, a cache, and what is counted and told.

ghost use Rattle.std.specs.Prelude.{◌≡◌, vec_len, false, None};
ghost use Rattle.hart_step.specs.Core.{core_of};
ghost use Rattle.spec_base.specs.declared.machine.View.TheVariants.{Shadow};

use cache_queue::Cache;
use file_calls::Files;
use hart_mem::Mem;
use hart_step::Hart;
use runner_parts::{Counts, End, Notes};
use spec_base::ShadowState;

/// A rewritten program while it runs.
#[derive(Drop)]
pub struct Runner {
    pub(crate) mem: Mem,
    pub(crate) own: Hart,
    pub(crate) own_files: Files,
    pub(crate) asked: bool,
    pub(crate) stalled: bool,
    pub(crate) gathered: usize,
    pub(crate) shadow: Hart,
    pub(crate) shadow_files: Files,
    pub(crate) state: ShadowState,
    pub(crate) cache: Cache,
    pub(crate) staging: Vec<u8>,
    pub(crate) filling: Vec<u8>,
    pub(crate) counts: Counts,
    pub(crate) ahead: bool,
    pub(crate) whole: bool,
    pub(crate) end: Option<End>,
    pub(crate) notes: Notes,
    pub(crate) text: usize,
    ghost shadow_view: { (core_of shadow).view ≡ Shadow },
    ghost staging_room: { vec_len staging ≡ 69632 },
    ghost idle: { stalled ≡ false → cache.demanded ≡ None },
    ghost filling_room: { vec_len filling ≡ 69632 },
}
