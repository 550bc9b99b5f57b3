//! Rows with outside expected values, and each call on its happy path.

use crate::{Frame, PAGE_BYTES, Pool, PoolFault};
use std::process::Abort;
use std::test::Fail;

#[test]
fn reserves_up_to_the_most(rt: HostRuntime) {
    let mut pool = Pool::new(rt.alloc(), 2);
    assert_eq!(rt; pool.reserve(2), Ok(()));
    assert_eq!(rt; pool.spare(), 2);
    assert!(rt; pool.take().is_some());
    assert_eq!(rt; pool.reserve(1), Ok(()));
    assert_eq!(rt; pool.reserve(2), Err(PoolFault::Full));
    assert_eq!(rt; pool.spare(), 1);
    assert_eq!(rt; pool.in_use(), 1);
}

#[test]
fn gives_no_frame_that_was_not_reserved(rt: HostRuntime) {
    let mut pool = Pool::new(rt.alloc(), 2);
    assert!(rt; pool.take().is_none());
    let mut none = Pool::new(rt.alloc(), 0);
    assert_eq!(rt; none.reserve(0), Ok(()));
    assert_eq!(rt; none.reserve(1), Err(PoolFault::Full));
    assert!(rt; none.take().is_none());
}

// How many bytes of a frame are this one.
fn count(page: &[u8], byte: u8) -> usize {
    page.iter().filter(|x| **x == byte).count()
}

#[test]
fn frames_share_no_byte(rt: HostRuntime) -> Result<(), Fail> {
    let mut pool = Pool::new(rt.alloc(), 3);
    assert_eq!(rt; pool.reserve(3), Ok(()));
    let (Some(first), Some(second), Some(third)) = (pool.take(), pool.take(), pool.take()) else {
        panic!(rt; "three frames were reserved");
    };
    pool.bytes_mut(&second).fill(7);
    assert_eq!(rt; count(pool.bytes(&first), 0), PAGE_BYTES);
    assert_eq!(rt; count(pool.bytes(&third), 0), PAGE_BYTES);
    pool.copy(&second, &third);
    assert_eq!(rt; count(pool.bytes(&third), 7), PAGE_BYTES);
    assert_eq!(rt; count(pool.bytes(&first), 0), PAGE_BYTES);
    pool.write(&first, 4094, &[8, 9]);
    assert_eq!(rt; pool.bytes(&first)[4095], 9);
    assert_eq!(rt; count(pool.bytes(&first), 0), PAGE_BYTES - 2);
    Ok(())
}

#[test]
fn gives_a_blank_frame_again(rt: HostRuntime) {
    let mut pool = Pool::new(rt.alloc(), 3);
    assert_eq!(rt; pool.reserve(3), Ok(()));
    let (Some(first), Some(second), Some(third)) = (pool.take(), pool.take(), pool.take()) else {
        panic!(rt; "three frames were reserved");
    };
    pool.bytes_mut(&third).fill(7);
    pool.give(third);
    pool.give(second);
    pool.give(first);
    assert_eq!(rt; pool.in_use(), 0);
    assert_eq!(rt; pool.spare(), 3);
    for _ in 0..3 {
        if let Some(again) = pool.take() {
            assert_eq!(rt; count(pool.bytes(&again), 0), PAGE_BYTES);
        }
    }
}
