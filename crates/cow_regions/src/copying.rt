//! Copies of regions.

ghost use Rattle.std.specs.Prelude.{◌≡◌, ◌+◌, ◌-◌, ◌*◌, ◌%◌, ◌<◌, ◌≤◌, ◌==◌, IsTrue, ℕ, length};
ghost use Rattle.spec_base.specs.Word.{byte_of};
ghost use Rattle.rv_model.specs.Memory.{all_from, patched};
ghost use Rattle.rv_model.specs.Rights.{in_range};
ghost use Rattle.rv_model.specs.Space.{program_byte};
ghost use Rattle.code_model.specs.Regions.{entry_of, slot_address, slots_in_use, uncopied, with_copies, with_copy};
ghost use Rattle.hart_mem.specs.Held.{space_of, spare_of};
ghost use Rattle.code_model.specs.Tables.{AreConsistent, all_regions};
ghost use Rattle.cow_regions.specs.Tables.{KeepsSlots};

use crate::numbers::put;
use crate::tables::{slot_of, used};
use hart_mem::{Mem, Width};
use spec_base::{COPIES_START, COPY_BYTES, LIST_START, TABLE_START, View};

/// How many of the regions from `first` up to `end` have no copy.
pub(crate) fn count_new(mem: &Mem, first: u32, end: u32) -> u32
    requires order { first ≤ end }
    requires inside { end ≤ all_regions (space_of mem.now).layout }
    ensures value { result ≡ length (uncopied (space_of mem.now).shared first (end - first)) }
    ensures most { result ≤ end - first }
{
    let mut count = 0;
    for region in first..end {
        if is_uncopied(mem, region) {
            count += 1;
        }
    }
    count
}

/// Gives each of the regions from `first` up to `end` that has no copy one, in order.
pub(crate) fn make_copies(mem: &mut Mem, first: u32, end: u32)
    requires few { (space_of mem.old).layout.regions ≤ 65536 }
    requires above { 16 ≤ first }
    requires order { first ≤ end }
    requires inside { end ≤ all_regions (space_of mem.old).layout }
    requires room { slots_in_use (space_of mem.old).shared + length (uncopied (space_of mem.old).shared first (end - first)) ≤ (space_of mem.old).layout.regions }
    ensures space { space_of mem.new ≡ record (space_of mem.old) { shared = with_copies (space_of mem.old).layout (space_of mem.old).text (space_of mem.old).program (space_of mem.old).shared (uncopied (space_of mem.old).shared first (end - first)) } }
    ensures consistent { AreConsistent (space_of mem.old).layout (space_of mem.old).shared → AreConsistent (space_of mem.old).layout (space_of mem.new).shared }
    ensures kept { KeepsSlots (space_of mem.old).layout (space_of mem.old).shared (space_of mem.new).shared }
    ensures copied { (region : ℕ) → first ≤ region → region < end → 0 < entry_of (space_of mem.new).shared region }
    ensures spare { spare_of mem.new ≡ spare_of mem.old }
{
    for region in first..end {
        make_copy(mem, region);
    }
}

/// Gives a region a copy, if it has none.
fn make_copy(mem: &mut Mem, region: u32)
    requires few { (space_of mem.old).layout.regions ≤ 65536 }
    requires above { 16 ≤ region }
    requires inside { region < all_regions (space_of mem.old).layout }
    requires room { entry_of (space_of mem.old).shared region ≡ 0 → slots_in_use (space_of mem.old).shared < (space_of mem.old).layout.regions }
    ensures space { space_of mem.new ≡ record (space_of mem.old) { shared = with_copies (space_of mem.old).layout (space_of mem.old).text (space_of mem.old).program (space_of mem.old).shared (uncopied (space_of mem.old).shared region 1) } }
    ensures spare { spare_of mem.new ≡ spare_of mem.old }
{
    if is_uncopied(mem, region) {
        copy_region(mem, region);
    }
}

/// Whether a region has no copy.
fn is_uncopied(mem: &Mem, region: u32) -> bool
    requires { region < all_regions (space_of mem.now).layout }
    ensures { result ≡ (entry_of (space_of mem.now).shared region == 0) }
{
    slot_of(mem, region).is_none()
}

/// Gives a region the next slot: first its bytes, then its word of the list and the count, and last
/// its entry.
fn copy_region(mem: &mut Mem, region: u32)
    requires few { (space_of mem.old).layout.regions ≤ 65536 }
    requires above { 16 ≤ region }
    requires inside { region < all_regions (space_of mem.old).layout }
    requires room { slots_in_use (space_of mem.old).shared < (space_of mem.old).layout.regions }
    ensures space { space_of mem.new ≡ record (space_of mem.old) { shared = with_copy (space_of mem.old).layout (space_of mem.old).text (space_of mem.old).program (space_of mem.old).shared region } }
    ensures spare { spare_of mem.new ≡ spare_of mem.old }
{
    let slot = used(mem);
    copy_bytes(mem, slot, region);
    let entry = TABLE_START + 4 * region as u64;
    put(mem, LIST_START + 8 + 4 * slot as u64, Width::Four, entry);
    put(mem, LIST_START, Width::Eight, slot as u64 + 1);
    put(mem, entry, Width::Four, slot as u64 + 1);
}

/// Copies the bytes of a region to a slot, which is counted from 0.
fn copy_bytes(mem: &mut Mem, slot: u32, region: u32)
    requires slot { slot < (space_of mem.old).layout.regions }
    requires above { 16 ≤ region }
    requires inside { region < all_regions (space_of mem.old).layout }
    ensures space { space_of mem.new ≡ record (space_of mem.old) { shared = patched (space_of mem.old).shared (slot_address slot) 256 (λ i. program_byte (space_of mem.old).layout (space_of mem.old).text (space_of mem.old).program (256 * region + i)) } }
    ensures spare { spare_of mem.new ≡ spare_of mem.old }
{
    let from = COPY_BYTES * region as u64;
    let to = COPIES_START + COPY_BYTES * slot as u64;
    for i in 0..COPY_BYTES / 8 {
        let number = range_number(mem, from + 8 * i);
        put(mem, to + 8 * i, Width::Eight, number);
    }
}

/// Eight bytes of the program range, its text included.
fn range_number(mem: &Mem, address: u64) -> u64
    requires aligned { address % 8 ≡ 0 }
    requires inside { IsTrue (all_from (in_range (space_of mem.now).layout) address 8) }
    ensures { (i : ℕ) → i < 8 → byte_of result i ≡ program_byte (space_of mem.now).layout (space_of mem.now).text (space_of mem.now).program (address + i) }
{
    mem.load(View::Shadow, address, Width::Eight).unwrap()
}
