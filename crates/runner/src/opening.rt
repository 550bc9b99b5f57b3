//! A runner at the start of its program, and the opening of a rewritten file.

ghost use Rattle.std.specs.Prelude.{◌≡◌, ◌≤◌, ◌+◌, length, map, string_bytes, vec_len, IfOk, None};
ghost use Rattle.std.specs.List.{sum_by};
ghost use Rattle.cache_queue.specs.State.{no_blocks};
ghost use Rattle.hart_mem.specs.Held.{space_of};
ghost use Rattle.hart_step.specs.Core.{core_of};
ghost use Rattle.run_model.specs.Run.{World, opened_run};
ghost use Rattle.run_laws.specs.OwnLaws.{Accepted};
ghost use Rattle.runner_parts.specs.Counts.{no_counts};
ghost use Rattle.runner.specs.Opens.{IsStart, OpensAs};
ghost use Rattle.runner.specs.Shows.{Shows};

use crate::runner::Runner;
use cache_queue::Cache;
use file_calls::Files;
use hart_mem::Mem;
use hart_step::Hart;
use run_loader::{OpenFault, open};
use runner_parts::{Counts, Notes};
use spec_base::{NoMemory, ShadowState, View};
use std::alloc::Global;
use world_io::BLOCK;

/// How many blocks the cache has.
const BLOCKS: usize = 256;

/// How many hints may wait.
const DEPTH: usize = 64;

/// How many bytes the blocks of one read have at most.
const STAGED: usize = 17 * BLOCK;

/// So many zero bytes.
fn zeros(alloc: Global, count: usize) -> Result<Vec<u8>, NoMemory>
    ensures { IfOk result (λ v. vec_len v ≡ count) }
{
    Ok(vec![in alloc; 0u8; count]?)
}

/// An empty cache, and the rooms of two reads.
fn rooms(alloc: Global) -> Result<(Cache, Vec<u8>, Vec<u8>), NoMemory>
    ensures { IfOk result (λ v. (v.0 ≡ no_blocks 256 64) × (vec_len v.1 ≡ 69_632) × (vec_len v.2 ≡ 69_632)) }
{
    let cache = Cache::new(alloc, BLOCKS, DEPTH)?;
    let staging = zeros(alloc, STAGED)?;
    let filling = zeros(alloc, STAGED)?;
    Ok((cache, staging, filling))
}

impl Runner {
    /// A runner of a program, of which hart, memory and descriptors are those of its start. It shows the
    /// first state of the program's run. The cache's lists and the room of two reads are taken here.
    pub fn new(alloc: Global, own: Hart, mem: Mem, files: Files) -> Result<Runner, NoMemory>
        ensures shows { IfOk result (λ v. (w : World) → Accepted w → IsStart w (core_of own) (space_of mem) files → Shows v w (opened_run w)) }
        ensures counts { IfOk result (λ v. v.counts ≡ no_counts) }
        ensures goes_on { IfOk result (λ v. v.end ≡ None) }
    {
        match rooms(alloc) {
            Ok((cache, staging, filling)) => {
                Ok(Runner::at_start(own, mem, files, cache, staging, filling))
            }
            Err(NoMemory) => Err(NoMemory),
        }
    }

    // The same with an empty cache and with these rooms.
    fn at_start(
        own: Hart,
        mem: Mem,
        files: Files,
        cache: Cache,
        staging: Vec<u8>,
        filling: Vec<u8>,
    ) -> Runner
        requires empty { cache ≡ no_blocks 256 64 }
        requires staged { vec_len staging ≡ 69_632 }
        requires filled { vec_len filling ≡ 69_632 }
        ensures shows { (w : World) → Accepted w → IsStart w (core_of own) (space_of mem) files → Shows result w (opened_run w) }
        ensures counts { result.counts ≡ no_counts }
        ensures goes_on { result.end ≡ None }
    {
        let shadow = Hart::new(0, View::Shadow);
        let counts = Counts::new();
        let notes = Notes::new();
        Runner {
            mem,
            own,
            own_files: files,
            asked: false,
            stalled: false,
            gathered: 0,
            shadow,
            shadow_files: files,
            state: ShadowState::Never,
            cache,
            staging,
            filling,
            counts,
            ahead: true,
            whole: true,
            end: None,
            notes,
            text: 0,
        }
    }

    /// Opens a rewritten file, which is any list of bytes, with these arguments: 64 at most, of
    /// 65,536 bytes at most with a zero byte behind each, and the first is by custom the program's
    /// name. All memory but pages of the program range is taken here.
    pub fn open(alloc: Global, file: &[u8], arguments: &[String]) -> Result<Runner, OpenFault>
        requires few { length arguments.now ≤ 64 }
        requires short { sum_by (λ word. length word + 1) (map string_bytes arguments.now) ≤ 65_536 }
        ensures answer { OpensAs file.now (map string_bytes arguments.now) result }
        ensures counts { IfOk result (λ v. v.counts ≡ no_counts) }
        ensures goes_on { IfOk result (λ v. v.end ≡ None) }
    {
        let opened = match open(alloc, file, arguments) {
            Ok(opened) => opened,
            Err(fault) => return Err(fault),
        };
        match Runner::new(alloc, opened.hart, opened.mem, opened.files) {
            Ok(runner) => Ok(runner),
            Err(NoMemory) => Err(OpenFault::NoMemory),
        }
    }
}
