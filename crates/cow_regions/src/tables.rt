//! The region table and the region list, as the emitted code keeps them.

ghost use Rattle.std.specs.Prelude.{◌≡◌, ◌<◌, ◌≤◌, ◌-◌, ◌^◌, None, min};
ghost use Rattle.code_model.specs.Regions.{slots_in_use};
ghost use Rattle.hart_mem.specs.Held.{space_of};
ghost use Rattle.code_model.specs.Tables.{all_regions};
ghost use Rattle.cow_regions.specs.Tables.{slot_in};

use crate::numbers::number;
use hart_mem::{Mem, Width};
use spec_base::{COPY_BYTES, LIST_START, TABLE_START};

/// How many regions have copies, by the count of the list, and at most `u32::MAX`. Where table and
/// list are consistent it is at most the regions of the layout.
pub fn used(mem: &Mem) -> u32
    ensures { result ≡ min (slots_in_use (space_of mem.now).shared) (2 ^ 32 - 1) }
{
    let count = number(mem, LIST_START, Width::Eight);
    if count >= u32::MAX as u64 {
        return u32::MAX;
    }
    count as u32
}

/// The slot of a region, counted from 1. None exactly where the region has no copy, or isn't one of
/// the program range.
pub fn slot_of(mem: &Mem, region: u32) -> Option<u32>
    ensures inside { region < all_regions (space_of mem.now).layout → result ≡ slot_in (space_of mem.now).shared region }
    ensures outside { all_regions (space_of mem.now).layout ≤ region → result ≡ None }
{
    if region as u64 >= mem.layout().version.range_end() / COPY_BYTES {
        return None;
    }
    let entry = number(mem, TABLE_START + 4 * region as u64, Width::Four);
    if entry == 0 {
        return None;
    }
    Some(entry as u32)
}
