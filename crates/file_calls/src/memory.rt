//! Bytes and names in a program's memory.

ghost use Rattle.std.specs.Prelude.{◌≡◌, ◌+◌, ◌≤◌, length};
ghost use Rattle.program_model.specs.Calls as calls;
ghost use Rattle.rv_model.specs.Data.{byte_in, data_in, memory_in};
ghost use Rattle.file_calls.specs.Data.{named};

use crate::errno::{EFAULT, ENAMETOOLONG, ENOENT};
use arrayvec::ArrayVec;
use rv_model::Bytes;
use spec_base::Name;

/// The byte `distance` past an address, if it is data.
pub fn byte_past<B: Bytes>(mem: &B, address: u64, distance: u64) -> Option<u8>
    ensures { result ≡ byte_in (B.byte_at mem.now) (address + distance) }
{
    match address.checked_add(distance) {
        Some(at) => mem.byte(at),
        None => None,
    }
}

/// The name at an address: the bytes before the first zero byte. The answer is the call's where
/// there is no name: a byte isn't data, 256 bytes have no zero among them, or the name is empty.
pub fn name_at<B: Bytes>(mem: &B, address: u64) -> Result<Name, i64>
    ensures { named result ≡ calls.name_at (data_in (B.byte_at mem.now)) (memory_in (B.byte_at mem.now)) address }
{
    let mut bytes = ArrayVec::<u8, 256>::new();
    for distance in 0..256 {
        match byte_past(mem, address, distance) {
            None => return Err(EFAULT),
            Some(0) => return name_of(bytes.as_slice()),
            Some(byte) => bytes.push(byte),
        }
    }
    Err(ENAMETOOLONG)
}

// The name of these bytes; an empty one names no file.
fn name_of(bytes: &[u8]) -> Result<Name, i64>
    requires { length bytes.now ≤ 255 }
    ensures { named result ≡ calls.not_empty (calls.Whole bytes.now) }
{
    Name::new(bytes).ok_or(ENOENT)
}
