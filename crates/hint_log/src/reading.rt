//! What the hint log and the restart box hold while a rewritten program runs.

ghost use Rattle.std.specs.Prelude.{◌≡◌, ◌+◌, ◌%◌, ◌<◌, ◌≤◌, SomeIff};
ghost use Rattle.spec_base.specs.Layout.{link_start, link_bytes};
ghost use Rattle.rv_model.specs.Memory.{loaded};
ghost use Rattle.code_model.specs.Log.{boxed, boxed_site, log_head, log_place, log_tail, logged, IsQueue};
ghost use Rattle.hart_mem.specs.Held.{space_of};
ghost use Rattle.hint_log.specs.Log.{log_length};

use assembler::place::BOX_START;
use hart_mem::{Mem, Width};
use spec_base::{LINK_START, Reg, View};

/// How many pairs the log has.
pub fn len(mem: &Mem) -> usize
    requires queue { IsQueue (space_of mem.now).shared }
    ensures { result ≡ log_length (space_of mem.now).shared }
{
    (tail(mem) - head(mem)) as usize
}

/// Pair `i` of the log from the oldest: its key and its asked count. None exactly where the log
/// has at most `i` pairs.
pub fn entry(mem: &Mem, i: usize) -> Option<(u64, u64)>
    requires queue { IsQueue (space_of mem.now).shared }
    ensures { SomeIff result (i < log_length (space_of mem.now).shared)
        (logged (space_of mem.now).shared (log_head (space_of mem.now).shared + i)) }
{
    let first = head(mem);
    if i as u64 >= tail(mem) - first {
        return None;
    }
    let place = pair_place(first + i as u64);
    Some((link_number(mem, place), link_number(mem, place + 8)))
}

/// What a register of the program held at the last restart: 0 for x0.
pub fn boxed(mem: &Mem, reg: Reg) -> u64
    ensures { result ≡ boxed (space_of mem.now).shared reg }
{
    let number = reg.number();
    if number == 0 {
        return 0;
    }
    link_number(mem, BOX_START + 8 * number as u64)
}

/// The site of the call that restarted the shadow last.
pub fn boxed_site(mem: &Mem) -> u64
    ensures { result ≡ boxed_site (space_of mem.now).shared }
{
    link_number(mem, BOX_START)
}

/// How many pairs were taken from the log.
pub(crate) fn head(mem: &Mem) -> u64
    ensures { result ≡ log_head (space_of mem.now).shared }
{
    link_number(mem, LINK_START)
}

/// How many pairs were appended to the log.
pub(crate) fn tail(mem: &Mem) -> u64
    ensures { result ≡ log_tail (space_of mem.now).shared }
{
    link_number(mem, LINK_START + 8)
}

/// Where the pair with this number stands: in one of 64 places of 16 bytes, from 256 of the link
/// on.
fn pair_place(number: u64) -> u64
    ensures { result ≡ log_place number }
{
    LINK_START + 256 + 16 * (number % 64)
}

/// The number of 8 bytes at an address of the link, all of which the shadow may load.
#[tactic(auto, using(crate::proofs::LinkLoads::link_answer))]
fn link_number(mem: &Mem, address: u64) -> u64
    requires aligned { address % 8 ≡ 0 }
    requires above { link_start ≤ address }
    requires below { address + 8 ≤ link_start + link_bytes }
    ensures { result ≡ loaded (space_of mem.now).shared address 8 }
{
    mem.load(View::Shadow, address, Width::Eight).unwrap()
}
