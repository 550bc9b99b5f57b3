//! Where the emitted code and its private places stand.

ghost use Rattle.std.specs.Prelude.{◌≡◌, ◌+◌, ◌*◌, ◌^◌, ◌<◌, IsTrue};
ghost use Rattle.spec_base.specs.Layout.{is_lawful};
ghost use Rattle.spec_base.specs.Word.{plus_int};
ghost use Rattle.rv_model.specs.Rights.{in_text};
ghost use Rattle.code_model.specs.Blocks.{is_target, load_helper, store_helper};
ghost use Rattle.code_model.specs.Places.{block_at};

use assembler::place;
use rv_decode::{LoadOp, StoreOp};
use spec_base::{Layout, SHADOW_START};

/// The helper that finds the place of a load, as an offset from the first helper.
pub fn load_helper(op: LoadOp) -> u64
    ensures place { result ≡ load_helper op }
    ensures below { result < 2 ^ 12 }
{
    match op {
        LoadOp::Lb | LoadOp::Lbu => place::LOAD1,
        LoadOp::Lh | LoadOp::Lhu => place::LOAD2,
        LoadOp::Lw | LoadOp::Lwu => place::LOAD4,
        LoadOp::Ld => place::LOAD8,
    }
}

/// The helper that finds the place of a store, as an offset from the first helper.
pub fn store_helper(op: StoreOp) -> u64
    ensures place { result ≡ store_helper op }
    ensures below { result < 2 ^ 12 }
{
    match op {
        StoreOp::Sb => place::STORE1,
        StoreOp::Sh => place::STORE2,
        StoreOp::Sw => place::STORE4,
        StoreOp::Sd => place::STORE8,
    }
}

/// An address plus a signed number, modulo 2^64.
pub fn offset(address: u64, by: i64) -> u64
    ensures { result ≡ plus_int address by }
{
    address.wrapping_add(by.cast_unsigned())
}

/// Whether a jump or branch may go there: to an instruction of the text.
pub fn is_target(layout: &Layout, address: u64) -> bool
    ensures { result ≡ is_target layout.now address }
{
    layout.text_start <= address && address < layout.text_end && address % 4 == 0
}

/// Where the block of an instruction stands.
pub fn block_at(layout: &Layout, address: u64) -> u64
    requires lawful { IsTrue (is_lawful layout.now) }
    requires within { IsTrue (in_text layout.now address) }
    ensures place { result ≡ block_at layout.now address }
    ensures below { result < 2 ^ 32 }
{
    SHADOW_START + 16 * (address - layout.text_start)
}
