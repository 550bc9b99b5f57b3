//! Rows of needs and traces with the fetches that the best plan makes, and a search through all plans.

use crate::{PlanFault, PlanTotals, plan, plan_trace};
use std::process::Abort;
use std::test::Fail;

#[test]
fn the_lowest_of_two_that_are_never_needed_leaves(rt: HostRuntime) -> Result<(), Fail> {
    let made = plan(rt.alloc(), &[7, 3, 9, 5], 2)?;
    assert_eq!(rt; made.fetches, 4);
    assert_eq!(rt;
        made.leave.as_slice(),
        [None, None, Some(3u64), Some(7)].as_slice()
    );
    Ok(())
}

// Three blocks, and the first two of them again.
const AGAIN: &[u8] =
    b"1 0 restart 61 4096 1\n2 0 restart 61 8192 1\n3 0 restart 61 12288 1\n4 0 restart 61 4096 1\n5 0 restart 61 8192 1\n";

#[test]
fn traces(rt: HostRuntime) -> Result<(), Fail> {
    let rows = [
        (b"".as_slice(), 256u32, 0u64, 0u64),
        (b"1 0 hint 61 0 4096\n", 256, 0, 0),
        (b"1 0 match 61 0 0\n", 256, 0, 0),
        (b"1 0 match 61 4095 65536\n", 256, 17, 17),
        (AGAIN, 1, 5, 5),
        (AGAIN, 2, 5, 4),
        (AGAIN, 3, 5, 3),
        (AGAIN, 65_536, 5, 3),
    ];
    for (trace, blocks, needs, fetches) in rows {
        assert!(rt; blocks >= 1);
        assert_eq!(rt;
            plan_trace(rt.alloc(), trace, blocks),
            Ok(PlanTotals { needs, fetches })
        );
    }
    assert_eq!(rt;
        plan_trace(rt.alloc(), b"1 0 turns\n1 0 turns", 1),
        Err(PlanFault::BadLine(2))
    );
    Ok(())
}

// How many blocks of a set of four.
fn size(set: usize) -> u64 {
    (set % 16).count_ones() as u64
}

// The least cost of all plans for needs of four blocks, by the sets of blocks that are held.
fn least_of_all(needs: &[u64], blocks: u64) -> u64 {
    let mut costs = [1_000u64; 16];
    costs[0] = 0;
    for need in needs {
        let mut next = [1_000u64; 16];
        for now in 0..16usize {
            if (now >> (need % 4)) % 2 == 0 || size(now) > blocks {
                continue;
            }
            for before in 0..16usize {
                let cost = costs[before].saturating_add(size(now & !before));
                next[now] = next[now].min(cost);
            }
        }
        costs = next;
    }
    costs
        .iter()
        .copied()
        .fold(1_000, |least, cost| least.min(cost))
}

#[test]
fn no_plan_of_all_costs_less(rt: HostRuntime) -> Result<(), Fail> {
    let mut random = 1u64;
    for _ in 0..300 {
        let mut needs = [0u64; 8];
        for need in &mut needs {
            random = random
                .wrapping_mul(6364136223846793005)
                .wrapping_add(1442695040888963407);
            *need = (random >> 33) % 4;
        }
        for blocks in 1..4u32 {
            let made = plan(rt.alloc(), &needs, blocks)?;
            assert_eq!(rt; made.fetches, least_of_all(&needs, blocks as u64));
        }
    }
    Ok(())
}
