//! The data that a shadow sees in place of the program's.

ghost use Rattle.std.specs.Prelude.{◌≡◌, ◌+◌, ◌-◌, ◌<◌, ◌≤◌};
ghost use Rattle.spec_base.specs.Layout.{copies_start, private_start};
ghost use Rattle.code_model.specs.Regions.{slot_address};
ghost use Rattle.hart_mem.specs.Held.{space_of};
ghost use Rattle.cow_regions.specs.Views.{shadowed_byte};

use crate::tables::slot_of;
use hart_mem::{Bytes, Mem, Width};
use spec_base::{COPIES_START, COPY_BYTES, View};
use std::marker::Model;

/// A memory as its shadow sees it: a byte that is data is that of its region's copy where the
/// region has one, and else the program's. An entry of the table past the slots of the layout
/// names a copy of zeros.
///
/// A contract sees it as the memory.
#[derive(Drop)]
pub struct Shadowed<'a> {
    mem: &'a Mem,
}

impl<'a> Model for Shadowed<'a> {
    ghost use Rattle.hart_mem.specs.Held.{Held};

    ghost Value = { Held };

    ghost view = { λ s. s.mem.now };
}

impl<'a> Shadowed<'a> {
    /// The shadow's view of a memory.
    pub fn new(mem: &'a Mem) -> Shadowed<'a>
        ensures { result ≡ mem.now }
    {
        Shadowed { mem }
    }
}

impl<'a> Bytes for Shadowed<'a> {
    ghost byte_at = { λ mem a. shadowed_byte (space_of mem) a };

    fn byte(&self, address: u64) -> Option<u8> {
        shadowed_byte(self.mem, address)
    }
}

/// The byte at an address, if it is data: the copy's where its region has one, else the program's.
fn shadowed_byte(mem: &Mem, address: u64) -> Option<u8>
    ensures { result ≡ shadowed_byte (space_of mem.now) address }
{
    let own = mem.byte(address)?;
    match slot_of(mem, (address / COPY_BYTES) as u32) {
        Some(slot) => Some(copied_byte(mem, slot, address % COPY_BYTES)),
        None => Some(own),
    }
}

/// A byte of the copy in a slot, which is counted from 1.
fn copied_byte(mem: &Mem, slot: u32, offset: u64) -> u8
    requires first { 1 ≤ slot }
    requires offset { offset < 256 }
    ensures { result ≡ (space_of mem.now).shared (slot_address (slot - 1) + offset) }
{
    shared_byte(mem, COPIES_START + COPY_BYTES * (slot - 1) as u64 + offset)
}

/// The byte at an address from the copies on, and 0 past the copies of the layout.
fn shared_byte(mem: &Mem, address: u64) -> u8
    requires above { copies_start ≤ address }
    requires below { address < private_start }
    ensures { result ≡ (space_of mem.now).shared address }
{
    match mem.load(View::Shadow, address, Width::One) {
        Ok(number) => number as u8,
        Err(_) => 0,
    }
}
