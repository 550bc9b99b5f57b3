//! Bytes that are filled into copies.

ghost use Rattle.std.specs.Prelude.{◌≡◌, ◌+◌, ◌-◌, ◌/◌, ◌%◌, ◌<◌, ◌≤◌, IsTrue, ℕ, get_or, length};
ghost use Rattle.spec_base.specs.Word.{byte_of};
ghost use Rattle.rv_model.specs.Memory.{all_from, patched, written};
ghost use Rattle.rv_model.specs.Rights.{is_data};
ghost use Rattle.code_model.specs.Regions.{copy_place, entry_of, slot_address};
ghost use Rattle.hart_mem.specs.Held.{space_of, spare_of};
ghost use Rattle.code_model.specs.Tables.{AreConsistent, all_regions};
ghost use Rattle.cow_regions.specs.Tables.{KeepsSlots};
ghost use Rattle.cow_regions.specs.Fills.{HaveCopies, IsSet, ShadowedBut, SharesAlone, filled_space, fitted, regions_fit};

use crate::copying::{count_new, make_copies};
use crate::numbers::put;
use crate::tables::{slot_of, used};
use hart_mem::{Mem, Width};
use spec_base::{COPIES_START, COPY_BYTES};

/// Whether bytes were filled into copies.
#[derive(Clone, Copy, Debug, PartialEq, Eq)]
pub enum Fitted {
    /// Each of them is set in the copy of its region.
    Done,
    /// Not all of their regions fit beside those in use.
    Full,
}

/// Fills bytes into the copies of their regions, of which those without a copy get one first. `Full`
/// comes exactly where there would be more regions in use than the layout has, and then nothing
/// changes. Nothing but bytes of table, list and copies changes, and no frame is taken.
pub fn fill_copies(mem: &mut Mem, address: u64, bytes: &[u8]) -> Fitted
    requires some { 1 ≤ length bytes.now }
    requires inside { IsTrue (all_from (is_data (space_of mem.old).layout) address (length bytes.now)) }
    ensures answer { result ≡ fitted (regions_fit (space_of mem.old) address (length bytes.now - 1)) }
    ensures full { result ≡ Fitted.Full → mem.new ≡ mem.old }
    ensures frame { SharesAlone (space_of mem.old) (space_of mem.new) }
    ensures done { result ≡ Fitted.Done → AreConsistent (space_of mem.old).layout (space_of mem.old).shared → space_of mem.new ≡ filled_space (space_of mem.old) address bytes.now }
    ensures shadowed { result ≡ Fitted.Done → AreConsistent (space_of mem.old).layout (space_of mem.old).shared → ShadowedBut (space_of mem.old) address bytes.now (space_of mem.new) }
    ensures consistent { AreConsistent (space_of mem.old).layout (space_of mem.old).shared → AreConsistent (space_of mem.old).layout (space_of mem.new).shared }
    ensures kept { AreConsistent (space_of mem.old).layout (space_of mem.old).shared → KeepsSlots (space_of mem.old).layout (space_of mem.old).shared (space_of mem.new).shared }
    ensures spare { spare_of mem.new ≡ spare_of mem.old }
{
    let first = (address / COPY_BYTES) as u32;
    let end = ((address + (bytes.len() as u64 - 1)) / COPY_BYTES + 1) as u32;
    let wanted = used(mem) as u64 + count_new(mem, first, end) as u64;
    if wanted > mem.layout().regions as u64 {
        return Fitted::Full;
    }
    make_copies(mem, first, end);
    set_bytes(mem, address, bytes);
    Fitted::Done
}

/// Sets bytes in the copies of their regions.
fn set_bytes(mem: &mut Mem, address: u64, bytes: &[u8])
    requires few { (space_of mem.old).layout.regions ≤ 65536 }
    requires inside { (address + length bytes.now - 1) / 256 < all_regions (space_of mem.old).layout }
    ensures set { AreConsistent (space_of mem.old).layout (space_of mem.old).shared → HaveCopies (space_of mem.old).shared address (length bytes.now)
        → IsSet (space_of mem.old) address bytes.now (space_of mem.new) }
    ensures frame { SharesAlone (space_of mem.old) (space_of mem.new) }
    ensures spare { spare_of mem.new ≡ spare_of mem.old }
{
    let mut done = 0;
    while done < bytes.len() {
        let at = address + done as u64;
        let end = bytes
            .len()
            .min(done + (COPY_BYTES - at % COPY_BYTES) as usize);
        set_piece(mem, at, &bytes[done..end]);
        done = end;
    }
}

/// Sets bytes of one region in its copy. An entry past the slots of the layout names none, and then
/// nothing changes.
fn set_piece(mem: &mut Mem, address: u64, bytes: &[u8])
    requires inside { address / 256 < all_regions (space_of mem.old).layout }
    requires fits { address % 256 + length bytes.now ≤ 256 }
    ensures set { 0 < entry_of (space_of mem.old).shared (address / 256) → entry_of (space_of mem.old).shared (address / 256) ≤ (space_of mem.old).layout.regions
        → space_of mem.new ≡ record (space_of mem.old) { shared = written (space_of mem.old).shared (copy_place (entry_of (space_of mem.old).shared (address / 256)) address) bytes.now } }
    ensures frame { SharesAlone (space_of mem.old) (space_of mem.new) }
    ensures spare { spare_of mem.new ≡ spare_of mem.old }
{
    let Some(slot) = slot_of(mem, (address / COPY_BYTES) as u32) else {
        return;
    };
    if slot <= mem.layout().regions {
        put_bytes(mem, slot - 1, address % COPY_BYTES, bytes);
    }
}

/// Puts bytes at an offset of the copy in a slot, which is counted from 0.
fn put_bytes(mem: &mut Mem, slot: u32, offset: u64, bytes: &[u8])
    requires slot { slot < (space_of mem.old).layout.regions }
    requires fits { offset + length bytes.now ≤ 256 }
    ensures space { space_of mem.new ≡ record (space_of mem.old) { shared = written (space_of mem.old).shared (slot_address slot + offset) bytes.now } }
    ensures spare { spare_of mem.new ≡ spare_of mem.old }
{
    let mut done = 0;
    while done < bytes.len() {
        let rest = &bytes[done..];
        done += put_next(mem, slot, offset + done as u64, rest);
    }
}

/// Puts the first of these bytes, and where they are aligned the first eight. Returns how many.
fn put_next(mem: &mut Mem, slot: u32, offset: u64, bytes: &[u8]) -> usize
    requires slot { slot < (space_of mem.old).layout.regions }
    requires fits { offset + length bytes.now ≤ 256 }
    requires some { 1 ≤ length bytes.now }
    ensures count { (1 ≤ result) × (result ≤ length bytes.now) }
    ensures space { space_of mem.new ≡ record (space_of mem.old) { shared = patched (space_of mem.old).shared (slot_address slot + offset) result (λ i. get_or bytes.now i 0) } }
    ensures spare { spare_of mem.new ≡ spare_of mem.old }
{
    let at = COPIES_START + COPY_BYTES * slot as u64 + offset;
    if offset % 8 == 0 && 8 <= bytes.len() {
        put(mem, at, Width::Eight, first_number(bytes));
        return 8;
    }
    put(mem, at, Width::One, bytes[0] as u64);
    1
}

/// The number of the first eight bytes.
fn first_number(bytes: &[u8]) -> u64
    requires { 8 ≤ length bytes.now }
    ensures { (i : ℕ) → i < 8 → byte_of result i ≡ get_or bytes.now i 0 }
{
    u64::from_le_bytes(*bytes.first_chunk::<8>().unwrap())
}
