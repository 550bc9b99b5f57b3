//! Ranges that grow together and fall apart.

use super::Ranges;
use std::process::Abort;
use std::test::Fail;

#[test]
fn keeps_a_stretch_as_one_range(rt: HostRuntime) -> Result<(), Fail> {
    let mut ranges = Ranges::new(rt.alloc());
    for address in 0..4096 {
        ranges.set(address, 1, true)?;
    }
    assert_eq!(rt; ranges.last_by_first.len(), 1);
    ranges.set(8192, 1, true)?;
    ranges.set(1000, 8, false)?;
    assert_eq!(rt; ranges.last_by_first.len(), 3);
    ranges.set(1000, 8, true)?;
    ranges.set(4096, 4096, true)?;
    assert_eq!(rt; ranges.last_by_first.len(), 1);
    Ok(())
}

#[test]
fn ends_with_the_last_address(rt: HostRuntime) -> Result<(), Fail> {
    let mut ranges = Ranges::new(rt.alloc());
    ranges.set(u64::MAX - 3, 8, true)?;
    assert!(rt; ranges.contains(u64::MAX) && !ranges.contains(0));
    assert!(rt; ranges.contains_any(u64::MAX - 7, 9) && !ranges.contains_any(u64::MAX - 7, 4));
    ranges.set(u64::MAX - 1, 4, false)?;
    assert!(rt; ranges.contains(u64::MAX - 2) && !ranges.contains_any(u64::MAX - 1, 2));
    Ok(())
}
