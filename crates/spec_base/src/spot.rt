//! Places in files.

use crate::file_name::Name;

/// A read of a file: `count` bytes from byte `offset` on.
#[derive(Clone, Copy, Debug, PartialEq, Eq)]
pub struct ReadSpot {
    pub name: Name,
    pub offset: u64,
    pub count: u64,
}

/// Block number `block` of a file. Blocks have 4,096 bytes.
#[derive(Clone, Copy, Debug, PartialEq, Eq, Hash)]
pub struct BlockSpot {
    pub name: Name,
    pub block: u64,
}
