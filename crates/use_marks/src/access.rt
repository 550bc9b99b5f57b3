//! What an instruction touches.

ghost use Rattle.std.specs.Prelude.{◌≡◌, ◌+◌, ◌<◌};
ghost use Rattle.spec_base.specs.Word.{plus_int};
ghost use Rattle.rv_model.specs.Registers.{reg};
ghost use Rattle.rv_model.specs.Arithmetic.{load_width, store_width};
ghost use Rattle.rv_model.specs.Data.{byte_in};
ghost use Rattle.use_marks.specs.Passing.{name_bytes};
ghost use Rattle.hart_step.specs.Core.{core_of};

use hart_step::Hart;
use rv_decode::{LoadOp, StoreOp};
use rv_model::Bytes;
use spec_base::Reg;

/// What the register of this number holds.
pub(crate) fn value(hart: &Hart, number: u32) -> u64
    requires { number < 32 }
    ensures { result ≡ reg (core_of hart.now).registers number }
{
    hart.reg(Reg::from_low_bits(number))
}

/// The address of an access.
pub(crate) fn address_of(hart: &Hart, base: Reg, imm: i64) -> u64
    ensures { result ≡ plus_int (reg (core_of hart.now).registers base) imm }
{
    hart.reg(base).wrapping_add(imm.cast_unsigned())
}

/// How many bytes a load takes.
pub(crate) fn load_bytes(op: LoadOp) -> u64
    ensures { result ≡ load_width op }
{
    match op {
        LoadOp::Lb | LoadOp::Lbu => 1,
        LoadOp::Lh | LoadOp::Lhu => 2,
        LoadOp::Lw | LoadOp::Lwu => 4,
        LoadOp::Ld => 8,
    }
}

/// How many bytes a store puts.
pub(crate) fn store_bytes(op: StoreOp) -> u64
    ensures { result ≡ store_width op }
{
    match op {
        StoreOp::Sb => 1,
        StoreOp::Sh => 2,
        StoreOp::Sw => 4,
        StoreOp::Sd => 8,
    }
}

/// How many bytes are looked at in reading the name at an address.
pub(crate) fn name_length<B: Bytes>(mem: &B, address: u64) -> u64
    ensures { result ≡ name_bytes (B.byte_at mem.now) address 256 }
{
    for distance in 0..256 {
        match byte_past(mem, address, distance) {
            None => return distance,
            Some(0) => return distance + 1,
            Some(_) => {}
        }
    }
    256
}

// The byte `distance` past an address, if it is data.
fn byte_past<B: Bytes>(mem: &B, address: u64, distance: u64) -> Option<u8>
    ensures { result ≡ byte_in (B.byte_at mem.now) (address + distance) }
{
    match address.checked_add(distance) {
        Some(at) => mem.byte(at),
        None => None,
    }
}
