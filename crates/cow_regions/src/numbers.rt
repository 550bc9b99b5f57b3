//! Numbers in the parts that the shadow shares with the stub.

ghost use Rattle.std.specs.Prelude.{◌≡◌, ◌*◌, ◌^◌, ◌<◌};
ghost use Rattle.rv_model.specs.Memory.{loaded, stored};
ghost use Rattle.hart_mem.specs.Access.{width_bytes};
ghost use Rattle.hart_mem.specs.Held.{space_of, spare_of};
ghost use Rattle.cow_regions.specs.Tables.{IsNumber};

use hart_mem::{Mem, Width};
use spec_base::View;

/// The number at an address.
pub(crate) fn number(mem: &Mem, address: u64, width: Width) -> u64
    requires { IsNumber (space_of mem.now).layout address (width_bytes width) }
    ensures value { result ≡ loaded (space_of mem.now).shared address (width_bytes width) }
    ensures bound { result < 2 ^ (8 * width_bytes width) }
{
    mem.load(View::Shadow, address, width).unwrap()
}

/// Puts a number at an address.
pub(crate) fn put(mem: &mut Mem, address: u64, width: Width, value: u64)
    requires { IsNumber (space_of mem.old).layout address (width_bytes width) }
    ensures space { space_of mem.new ≡ record (space_of mem.old) { shared = stored (space_of mem.old).shared address (width_bytes width) value } }
    ensures spare { spare_of mem.new ≡ spare_of mem.old }
{
    mem.store(View::Shadow, address, width, value).unwrap();
}
