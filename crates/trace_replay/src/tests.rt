//! Replays of a few traces.

use crate::{ReplayFault, Totals, replay_trace};
use std::test::Fail;

// A program that reads a file of 5,000 bytes, with a shadow that never moves.
const READS: &[u8] =
    b"5 0 call 56 0 2097152 0 3\n10 0 restart 64617461 0 4096\n10 0 stall 64617461 0\n10 0 fetch 64617461 0\n11 0 call 63 3 2101248 4096 4096\n12 0 restart 64617461 4096 904\n12 0 stall 64617461 1\n12 0 fetch 64617461 1\n13 0 call 63 3 2101248 4096 904\n14 0 restart 64617461 5000 0\n15 0 call 63 3 2101248 4096 0\n17 0 exit 0\n";

// Three blocks, and the first two of them again.
const AGAIN: &[u8] =
    b"1 0 restart 61 4096 1\n2 0 restart 61 8192 1\n3 0 restart 61 12288 1\n4 0 restart 61 4096 1\n5 0 restart 61 8192 1\n";

// Three blocks are hinted, and then needed.
const HINTED: &[u8] =
    b"1 0 hint 61 0 12288\n2 0 match 61 0 1\n1000000 0 match 61 4096 8192\n18446744073709551615 0 turns\n";

// A block that a hint comes for again is no more recent than before.
const OLDER: &[u8] =
    b"0 0 match 61 0 1\n0 0 match 61 4096 1\n0 0 hint 61 0 1\n0 0 match 61 8192 1\n0 0 match 61 0 1\n";

#[test]
fn totals(rt: HostRuntime) -> Result<(), Fail> {
    let rows = [
        (b"".as_slice(), 256u32, 64u32, 1u64, [0u64, 0, 0, 0]),
        (READS, 256, 64, 1, [3, 2, 2, 2]),
        (AGAIN, 1, 64, 1, [5, 5, 5, 5]),
        (AGAIN, 2, 64, 1, [5, 5, 5, 5]),
        (AGAIN, 3, 64, 1, [5, 5, 3, 3]),
        (AGAIN, 65_536, 65_536, 1_000_000_000_000_000, [5, 5, 3, 3]),
        (HINTED, 3, 64, 1, [2, 3, 0, 3]),
        (HINTED, 3, 2, 1, [2, 3, 1, 3]),
        (HINTED, 3, 64, 1_000_000, [2, 3, 2, 3]),
        (HINTED, 1, 64, 1, [2, 3, 2, 5]),
        (OLDER, 2, 64, 1, [4, 4, 4, 4]),
    ];
    for (trace, blocks, depth, every, told) in rows {
        assert!(rt; blocks >= 1 && depth >= 1 && every >= 1 && trace.len() < 1_000);
        let [reads, needs, stalls, fetches] = told;
        assert_eq!(rt;
            replay_trace(rt.alloc(), trace, blocks, depth, every),
            Ok(Totals {
                reads,
                needs,
                stalls,
                fetches
            })
        );
    }
    Ok(())
}

#[test]
fn bad_lines(rt: HostRuntime) -> Result<(), Fail> {
    let rows = [
        (b"1 0 turn\n".as_slice(), 1u64),
        (b"1 0 turns", 1),
        (b"\n", 1),
        (b"1 0 turns\n1 0 match 61 0 65537\n", 2),
        (b"1 0 turns\n1 0 hint 61 72057594037927936 1\n", 2),
        (b"1 0 turns\n01 0 turns\n1 0 turns\n", 2),
        (b"1 0 turns\n1 0 match 6 0 1\n", 2),
        (b"1 0 turns\n1 0 exit 256\n", 2),
        (b"1 0 turns\n2 0 turns\n3 0 turns ", 3),
    ];
    for (trace, number) in rows {
        assert!(rt; trace.len() < 1_000);
        assert_eq!(rt;
            replay_trace(rt.alloc(), trace, 1, 1, 1),
            Err(ReplayFault::BadLine(number))
        );
    }
    Ok(())
}
