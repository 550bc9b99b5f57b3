//! The small key of a block.

/// Block number `block` of the file whose name has this number.
#[derive(Clone, Copy, Debug, PartialEq, Eq, Hash)]
pub struct SmallSpot {
    pub name: usize,
    pub block: u64,
}
