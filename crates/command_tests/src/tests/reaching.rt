//! Programs that reach for the address space of a rewritten program behind the program range.

use super::commands::{command, is_told};
use super::images::{behind_a_read, image};
use std::test::Fail;

// The first words of a text at 0x10078, and the text of its trap.
const REACHES: [([u32; 2], &[u8]); 12] = [
    // lui x5,0x42000, and ld x6,0(x5) or sd x0,0(x5): the hint log
    (
        [0x4200_02B7, 0x0002_B303],
        b"spechint: trap LoadOut at 0x1007c\n",
    ),
    (
        [0x4200_02B7, 0x0002_B023],
        b"spechint: trap StoreOut at 0x1007c\n",
    ),
    // the same at 0x43000: the region table
    (
        [0x4300_02B7, 0x0002_B303],
        b"spechint: trap LoadOut at 0x1007c\n",
    ),
    (
        [0x4300_02B7, 0x0002_B023],
        b"spechint: trap StoreOut at 0x1007c\n",
    ),
    // ld x5,-8(x0) or sd x0,-8(x0): a private page
    ([0xFF80_3283, 0], b"spechint: trap LoadOut at 0x10078\n"),
    ([0xFE00_3C23, 0], b"spechint: trap StoreOut at 0x10078\n"),
    // lui x5,0x40000, 0x41100 or 0x41800, and jalr x0,0(x5): the shadow text, the helpers and the stub
    (
        [0x4000_02B7, 0x0002_8067],
        b"spechint: trap FetchOut at 0x40000000\n",
    ),
    (
        [0x4110_02B7, 0x0002_8067],
        b"spechint: trap FetchOut at 0x41100000\n",
    ),
    (
        [0x4180_02B7, 0x0002_8067],
        b"spechint: trap FetchOut at 0x41800000\n",
    ),
    // the gate instructions HGATE, HSTOP and HCALL 0
    ([0x0000_000B, 0], b"spechint: trap Illegal at 0x10078\n"),
    ([0x0000_400B, 0], b"spechint: trap Illegal at 0x10078\n"),
    ([0x0000_600B, 0], b"spechint: trap Illegal at 0x10078\n"),
];

#[test]
fn nothing_behind_the_program_range_is_the_programs(rt: HostRuntime) -> Result<(), Fail> {
    let alloc = rt.alloc();
    for (words, err) in &REACHES {
        let file = image(alloc, words)?;
        for verb in ["plain", "run"] {
            for layout in ["--layout=1", "--layout=2"] {
                let told = command(alloc, &[verb, layout, "w1"], &file, b"", &[], &[])?;
                assert!(rt; is_told(&told, 126, b"", err), "{verb} {layout} {words:?}");
            }
        }
    }
    Ok(())
}

// Such words behind a read, which starts the shadow, and what the report and the trap are then.
const REACHES_BEHIND: [([u32; 2], &[u8]); 4] = [
    (
        [0x4200_02B7, 0x0002_B303], // lui x5,0x42000; ld x6,0(x5)
        b"spechint: instructions 12 stalls 1 restarts 1 matched 0 hints 0 regions 0 shadow 2 parked Fault\nspechint: trap LoadOut at 0x100e0\n",
    ),
    (
        [0x4300_02B7, 0x0002_B023], // lui x5,0x43000; sd x0,0(x5)
        b"spechint: instructions 12 stalls 1 restarts 1 matched 0 hints 0 regions 0 shadow 2 parked Fault\nspechint: trap StoreOut at 0x100e0\n",
    ),
    (
        [0xFF80_3283, 0], // ld x5,-8(x0)
        b"spechint: instructions 11 stalls 1 restarts 1 matched 0 hints 0 regions 0 shadow 1 parked Fault\nspechint: trap LoadOut at 0x100dc\n",
    ),
    (
        [0x4180_02B7, 0x0002_8067], // lui x5,0x41800; jalr x0,0(x5)
        b"spechint: instructions 13 stalls 1 restarts 1 matched 0 hints 0 regions 0 shadow 2 parked Fault\nspechint: trap FetchOut at 0x41800000\n",
    ),
];

#[test]
fn a_shadow_that_reaches_behind_it_is_parked(rt: HostRuntime) -> Result<(), Fail> {
    let alloc = rt.alloc();
    for (words, err) in &REACHES_BEHIND {
        let file = behind_a_read(alloc, words)?;
        let told = command(
            alloc,
            &["run", "--report", "w1"],
            &file,
            &[7; 100],
            &[],
            &[],
        )?;
        assert!(rt; is_told(&told, 126, b"", err), "{words:?}");
    }
    Ok(())
}
