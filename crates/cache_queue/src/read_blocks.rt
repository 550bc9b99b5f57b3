//! The blocks of a read.

ghost use Rattle.std.specs.Prelude.{◌≡◌, ◌+◌, ◌-◌, ◌≤◌, ◌<◌, ◌^◌};
ghost use Rattle.program_model.specs.Cache.{blocks_up, blocks_of};

use spec_base::ReadSpot;
use std::ops::Range;

/// The numbers of the blocks that hold a byte of the read, ascending.
pub fn block_numbers(read: &ReadSpot) -> Range<u64>
    requires { read.now.offset + read.now.count < 2 ^ 64 }
    ensures blocks { blocks_up read.now.name result.start (result.end - result.start) ≡ blocks_of read.now }
    ensures order { result.start ≤ result.end }
{
    let count = read.count;
    if count == 0 {
        return 0..0;
    }
    let last = (read.offset + (count - 1)) / 4096;
    read.offset / 4096..last + 1
}
