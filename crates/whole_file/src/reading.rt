//! The reading of a file.

ghost use Rattle.std.specs.Prelude.{◌≡◌, ◌≤◌, length, IfOk};
ghost use Rattle.whole_file.specs.Reading.{ReadsWhole, mapped};

use spec_base::Name;
use std::alloc::Global;
use world_io::{BLOCK, Fetch, Look, Store};

/// The longest file that is fetched: 64 MiB.
pub const FILE_LIMIT: u64 = 67_108_864;

/// Why a file wasn't read.
#[derive(Clone, Copy, Debug, PartialEq, Eq)]
pub enum ReadFault {
    /// The store has no file of this name.
    Absent,
    /// The file has more than 64 MiB. None of it was fetched.
    TooLong,
    /// The look or a fetch failed.
    Failed,
    /// An allocation was refused. None of the file was fetched.
    NoMemory,
}

/// The bytes of the file: looks for it, takes memory for its blocks, and fetches them in ascending
/// order. The contract names each call on the store. What the bytes are is known where the store
/// tells its files.
pub fn read_whole<D: Store>(alloc: Global, name: &Name, store: &mut D) -> Result<Vec<u8>, ReadFault>
    ensures calls { ReadsWhole (D.state store.old) name.now (mapped (λ v. v.items) result) (D.state store.new) }
    ensures few { IfOk result (λ v. length v.items ≤ 67_108_864) }
{
    let size = match store.look(name) {
        Look::Found(size) => size,
        Look::Absent => return Err(ReadFault::Absent),
        Look::Failed => return Err(ReadFault::Failed),
    };
    if size > FILE_LIMIT {
        return Err(ReadFault::TooLong);
    }
    let blocks = (size + 4095) / 4096;
    let Ok(mut bytes) = Vec::with_capacity(alloc, BLOCK * blocks as usize) else {
        return Err(ReadFault::NoMemory);
    };
    let mut staging = [0u8; BLOCK];
    for block in 0..blocks {
        match store.fetch(name, block, &mut staging) {
            Fetch::Got(count) => {
                let _ = bytes.extend_from_slice(&staging[..count]);
            }
            Fetch::Failed => return Err(ReadFault::Failed),
        }
    }
    Ok(bytes)
}
