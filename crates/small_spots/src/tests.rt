//! Blocks of two files.

use crate::{Names, SmallSpot};
use spec_base::{BlockSpot, Name};
use std::test::Fail;

fn spot(name: &[u8], block: u64) -> Result<BlockSpot, Fail> {
    let name = Name::new(name).ok_or("name")?;
    Ok(BlockSpot { name, block })
}

#[test]
fn keys_by_first_appearance(rt: HostRuntime) -> Result<(), Fail> {
    let mut names = Names::new(rt.alloc());
    let rows = [
        (b"one".as_slice(), 7u64, 0usize),
        (b"one", 8, 0),
        (b"two", 7, 1),
        (b"one", 7, 0),
        (b"on", 0, 2),
        (b"two", 9, 1),
    ];
    for (bytes, block, name) in rows {
        assert_eq!(rt; names.key(&spot(bytes, block)?)?, SmallSpot { name, block });
    }
    Ok(())
}
