//! Worked blocks. The words of listings are those of llvm-mc (Debian LLVM 14.0.6,
//! `llvm-mc -triple=riscv64 -mattr=+m -show-encoding -riscv-no-aliases`).

use crate::{BLOCK_WORDS, block, blocks, guard_block, helpers};
use rv_decode::decode;
use spec_base::{HELPER_WORDS, Layout, NoMemory, Version};
use std::alloc::Global;
use std::process::Abort;
use std::test::Fail;

/// `ld x31,-8(x0)`.
const LANDING_PAD: u32 = 0xFF80_3F83;

/// HPARK 2.
const PARK: u32 = 0x0000_710B;

/// The text of a program that exits with code 7.
const EXITS: [u32; 3] = [0x0070_0513, 0x05D0_0893, 0x0000_0073];

fn layout(text_end: u64) -> Layout {
    Layout {
        text_start: 0x1_0078,
        text_end,
        regions: 4096,
        version: Version::Two,
    }
}

/// A text of three words.
fn three_words() -> Layout {
    layout(0x1_0084)
}

/// The longest text.
fn long_text() -> Layout {
    layout(0x11_0078)
}

fn block_in(layout: Layout, pc: u64, word: u32) -> Option<[u32; BLOCK_WORDS]> {
    if layout.is_lawful() && layout.text_start <= pc && pc < layout.text_end {
        Some(block(&decode(word), word, pc, &layout))
    } else {
        None
    }
}

/// The landing pad, these words, and zeros.
fn padded(words: &[u32]) -> Option<[u32; BLOCK_WORDS]> {
    let mut block = [0; BLOCK_WORDS];
    block[0] = LANDING_PAD;
    for (place, word) in block[1..].iter_mut().zip(words) {
        *place = *word;
    }
    Some(block)
}

/// The block of each word at its address has these words behind the landing pad.
fn check_blocks(rt: &impl Abort, layout: Layout, rows: &[(u64, u32, &[u32])]) {
    for (pc, word, words) in rows {
        assert_eq!(rt; block_in(layout, *pc, *word), padded(words), "at {word}");
    }
}

/// The blocks of all words at their addresses have these words behind the landing pad.
fn check_each_is(rt: &impl Abort, rows: &[(u64, u32)], words: &[u32]) {
    for (pc, word) in rows {
        assert_eq!(rt;
            block_in(three_words(), *pc, *word),
            padded(words),
            "at {word}"
        );
    }
}

#[test]
fn computing_instructions_stand_as_they_are(rt: HostRuntime) {
    let rows = [
        // addi x10,x0,7
        (
            0x0001_0078,
            0x0070_0513,
            [0x0070_0513, 0x03C0_006F].as_slice(),
        ),
        // addi x17,x0,93
        (
            0x0001_007C,
            0x05D0_0893,
            [0x05D0_0893, 0x03C0_006F].as_slice(),
        ),
        // lui x31,0x41100
        (
            0x0001_0078,
            0x4110_0FB7,
            [0x4110_0FB7, 0x03C0_006F].as_slice(),
        ),
        // addiw x17,x18,-3
        (
            0x0001_0078,
            0xFFD9_089B,
            [0xFFD9_089B, 0x03C0_006F].as_slice(),
        ),
        // mulhsu x31,x30,x29
        (
            0x0001_0078,
            0x03DF_2FB3,
            [0x03DF_2FB3, 0x03C0_006F].as_slice(),
        ),
        // remuw x28,x29,x30
        (
            0x0001_0078,
            0x03EE_FE3B,
            [0x03EE_FE3B, 0x03C0_006F].as_slice(),
        ),
        // fence rw,rw
        (
            0x0001_0078,
            0x0330_000F,
            [0x0330_000F, 0x03C0_006F].as_slice(),
        ),
    ];
    for (pc, word, words) in rows {
        assert_eq!(rt;
            block_in(three_words(), pc, word),
            padded(words),
            "at {word}"
        );
    }
}

/// The first result, 0x10078 + 0x1000, is small; the second is from 2^31 on, and the third below 0.
#[test]
fn auipc_builds_its_result(rt: HostRuntime) {
    let rows = [
        // auipc x5,1
        (
            0x0001_0078,
            0x0000_1297,
            [0x0000_42B7, 0x41E2_8293, 0x0022_9293, 0x0340_006F].as_slice(),
        ),
        // auipc x31,0x7ffff
        (
            0x0001_0078,
            0x7FFF_FF97,
            [0x2000_4FB7, 0xC1EF_8F93, 0x002F_9F93, 0x0340_006F].as_slice(),
        ),
        // auipc x5,0x80000
        (
            0x0001_0078,
            0x8000_0297,
            [0xE000_42B7, 0x01E2_8293, 0x0022_9293, 0x0340_006F].as_slice(),
        ),
        // auipc x0,1
        (
            0x0001_0080,
            0x0000_1017,
            [0x0000_4037, 0x4200_0013, 0x0020_1013, 0x0340_006F].as_slice(),
        ),
    ];
    for (pc, word, words) in rows {
        assert_eq!(rt;
            block_in(three_words(), pc, word),
            padded(words),
            "at {word}"
        );
    }
}

#[test]
fn jumps_link_and_go_by_x31(rt: HostRuntime) {
    let rows = [
        // jal x31,8
        (
            0x0001_0078,
            0x0080_0FEF,
            [
                0x0001_0FB7,
                0x07CF_8F93,
                0xFFF0_3C23,
                0x4000_0FB7,
                0x080F_8067,
            ]
            .as_slice(),
        ),
        // jal x0,4
        (
            0x0001_0078,
            0x0040_006F,
            [
                0x0001_0037,
                0x07C0_0013,
                0xFFF0_3C23,
                0x4000_0FB7,
                0x040F_8067,
            ]
            .as_slice(),
        ),
        // jal x1,-8
        (
            0x0001_0080,
            0xFF9F_F0EF,
            [
                0x0001_00B7,
                0x0840_8093,
                0xFFF0_3C23,
                0x4000_0FB7,
                0x000F_8067,
            ]
            .as_slice(),
        ),
        // jalr x31,-4(x31)
        (
            0x0001_0078,
            0xFFCF_8FE7,
            [
                0xFFF0_3C23,
                0xFFCF_8F93,
                0xFDF0_3C23,
                0x0001_0FB7,
                0x07CF_8F93,
                0xFFF0_3C23,
                0x4110_0FB7,
                0x200F_8067,
            ]
            .as_slice(),
        ),
        // jalr x0,0(x1)
        (
            0x0001_0078,
            0x0000_8067,
            [
                0xFFF0_3C23,
                0x0000_8F93,
                0xFDF0_3C23,
                0x0001_0037,
                0x07C0_0013,
                0x0000_0013,
                0x4110_0FB7,
                0x200F_8067,
            ]
            .as_slice(),
        ),
        // jalr x5,2047(x5)
        (
            0x0001_0078,
            0x7FF2_82E7,
            [
                0xFFF0_3C23,
                0x7FF2_8F93,
                0xFDF0_3C23,
                0x0001_02B7,
                0x07C2_8293,
                0x0000_0013,
                0x4110_0FB7,
                0x200F_8067,
            ]
            .as_slice(),
        ),
    ];
    for (pc, word, words) in rows {
        assert_eq!(rt;
            block_in(three_words(), pc, word),
            padded(words),
            "at {word}"
        );
    }
}

#[test]
fn branches_go_over_the_next_word(rt: HostRuntime) {
    let rows = [
        // bgeu x31,x30,8
        (
            0x0001_0078,
            0x01EF_F463,
            [0x01EF_F463, 0x03C0_006F, 0x0780_006F].as_slice(),
        ),
        // beq x5,x6,-4
        (
            0x0001_007C,
            0xFE62_8EE3,
            [0x0062_8463, 0x03C0_006F, 0xFB9F_F06F].as_slice(),
        ),
        // blt x0,x31,0
        (
            0x0001_007C,
            0x01F0_4063,
            [0x01F0_4463, 0x03C0_006F, 0xFF9F_F06F].as_slice(),
        ),
    ];
    for (pc, word, words) in rows {
        assert_eq!(rt;
            block_in(three_words(), pc, word),
            padded(words),
            "at {word}"
        );
    }
}

#[test]
fn loads_go_through_their_helpers(rt: HostRuntime) {
    let rows = [
        // lb x5,-1(x6)
        (
            0x0001_0078,
            0xFFF3_0283,
            [
                0xFFF0_3C23,
                0xFFF3_0F93,
                0xFDF0_3C23,
                0x4110_0FB7,
                0x000F_8FE7,
                0xFF00_3F03,
                0x000F_8283,
                0xFF80_3F83,
                0x0200_006F,
            ]
            .as_slice(),
        ),
        // lbu x31,0(x31)
        (
            0x0001_0078,
            0x000F_CF83,
            [
                0xFFF0_3C23,
                0x000F_8F93,
                0xFDF0_3C23,
                0x4110_0FB7,
                0x000F_8FE7,
                0xFF00_3F03,
                0x000F_CF83,
                0x0000_0013,
                0x0200_006F,
            ]
            .as_slice(),
        ),
        // lh x30,2(x30)
        (
            0x0001_0078,
            0x002F_1F03,
            [
                0xFFF0_3C23,
                0x002F_0F93,
                0xFDF0_3C23,
                0x4110_0FB7,
                0x040F_8FE7,
                0xFF00_3F03,
                0x000F_9F03,
                0xFF80_3F83,
                0x0200_006F,
            ]
            .as_slice(),
        ),
        // lhu x0,2047(x2)
        (
            0x0001_0078,
            0x7FF1_5003,
            [
                0xFFF0_3C23,
                0x7FF1_0F93,
                0xFDF0_3C23,
                0x4110_0FB7,
                0x040F_8FE7,
                0xFF00_3F03,
                0x000F_D003,
                0xFF80_3F83,
                0x0200_006F,
            ]
            .as_slice(),
        ),
        // lw x1,-2048(x31)
        (
            0x0001_0078,
            0x800F_A083,
            [
                0xFFF0_3C23,
                0x800F_8F93,
                0xFDF0_3C23,
                0x4110_0FB7,
                0x080F_8FE7,
                0xFF00_3F03,
                0x000F_A083,
                0xFF80_3F83,
                0x0200_006F,
            ]
            .as_slice(),
        ),
        // lwu x31,4(x0)
        (
            0x0001_0078,
            0x0040_6F83,
            [
                0xFFF0_3C23,
                0x0040_0F93,
                0xFDF0_3C23,
                0x4110_0FB7,
                0x080F_8FE7,
                0xFF00_3F03,
                0x000F_EF83,
                0x0000_0013,
                0x0200_006F,
            ]
            .as_slice(),
        ),
        // ld x5,0(x8)
        (
            0x0001_0078,
            0x0004_3283,
            [
                0xFFF0_3C23,
                0x0004_0F93,
                0xFDF0_3C23,
                0x4110_0FB7,
                0x0C0F_8FE7,
                0xFF00_3F03,
                0x000F_B283,
                0xFF80_3F83,
                0x0200_006F,
            ]
            .as_slice(),
        ),
        // ld x31,0(x30)
        (
            0x0001_0078,
            0x000F_3F83,
            [
                0xFFF0_3C23,
                0x000F_0F93,
                0xFDF0_3C23,
                0x4110_0FB7,
                0x0C0F_8FE7,
                0xFF00_3F03,
                0x000F_BF83,
                0x0000_0013,
                0x0200_006F,
            ]
            .as_slice(),
        ),
    ];
    for (pc, word, words) in rows {
        assert_eq!(rt;
            block_in(three_words(), pc, word),
            padded(words),
            "at {word}"
        );
    }
}

#[test]
fn stores_go_through_their_helpers(rt: HostRuntime) {
    let rows = [
        // sb x5,-1(x6)
        (
            0x0001_0078,
            0xFE53_0FA3,
            [
                0xFFF0_3C23,
                0xFFF3_0F93,
                0xFDF0_3C23,
                0x4110_0FB7,
                0x100F_8FE7,
                0xFF00_3F03,
                0x005F_8023,
                0xFF80_3F83,
                0x0200_006F,
            ]
            .as_slice(),
        ),
        // sh x30,2(x31)
        (
            0x0001_0078,
            0x01EF_9123,
            [
                0xFFF0_3C23,
                0x002F_8F93,
                0xFDF0_3C23,
                0x4110_0FB7,
                0x140F_8FE7,
                0xFF00_3F03,
                0x01EF_9023,
                0xFF80_3F83,
                0x0200_006F,
            ]
            .as_slice(),
        ),
        // sw x0,-2048(x2)
        (
            0x0001_0078,
            0x8001_2023,
            [
                0xFFF0_3C23,
                0x8001_0F93,
                0xFDF0_3C23,
                0x4110_0FB7,
                0x180F_8FE7,
                0xFF00_3F03,
                0x000F_A023,
                0xFF80_3F83,
                0x0200_006F,
            ]
            .as_slice(),
        ),
        // sd x31,8(x30)
        (
            0x0001_0078,
            0x01FF_3423,
            [
                0xFFF0_3C23,
                0x008F_0F93,
                0xFDF0_3C23,
                0x4110_0FB7,
                0x1C0F_8FE7,
                0xFF80_3F03,
                0x01EF_B023,
                0xFF00_3F03,
                0xFF80_3F83,
                0x01C0_006F,
            ]
            .as_slice(),
        ),
        // sb x31,0(x31)
        (
            0x0001_0078,
            0x01FF_8023,
            [
                0xFFF0_3C23,
                0x000F_8F93,
                0xFDF0_3C23,
                0x4110_0FB7,
                0x100F_8FE7,
                0xFF80_3F03,
                0x01EF_8023,
                0xFF00_3F03,
                0xFF80_3F83,
                0x01C0_006F,
            ]
            .as_slice(),
        ),
        // sd x31,-8(x2)
        (
            0x0001_0078,
            0xFFF1_3C23,
            [
                0xFFF0_3C23,
                0xFF81_0F93,
                0xFDF0_3C23,
                0x4110_0FB7,
                0x1C0F_8FE7,
                0xFF80_3F03,
                0x01EF_B023,
                0xFF00_3F03,
                0xFF80_3F83,
                0x01C0_006F,
            ]
            .as_slice(),
        ),
    ];
    for (pc, word, words) in rows {
        assert_eq!(rt;
            block_in(three_words(), pc, word),
            padded(words),
            "at {word}"
        );
    }
}

/// Half a text away, to the last word, to a block whose address has a negative lower part, and
/// the farthest branches, whose jumps are over 65,464 and -65,544 bytes.
#[test]
fn jumps_and_branches_reach_far(rt: HostRuntime) {
    let rows = [
        // jal x1,524288
        (
            0x0001_0078,
            0x0008_00EF,
            [
                0x0001_00B7,
                0x07C0_8093,
                0xFFF0_3C23,
                0x4080_0FB7,
                0x000F_8067,
            ]
            .as_slice(),
        ),
        // jal x1,1048572
        (
            0x0001_0078,
            0x7FDF_F0EF,
            [
                0x0001_00B7,
                0x07C0_8093,
                0xFFF0_3C23,
                0x4100_0FB7,
                0xFC0F_8067,
            ]
            .as_slice(),
        ),
        // jal x1,-1796
        (
            0x0001_07FC,
            0x8FDF_F0EF,
            [
                0x0001_10B7,
                0x8000_8093,
                0xFFF0_3C23,
                0x4000_1FB7,
                0x800F_8067,
            ]
            .as_slice(),
        ),
        // beq x5,x6,4092
        (
            0x0001_0078,
            0x7E62_8EE3,
            [0x0062_8463, 0x03C0_006F, 0x7B90_F06F].as_slice(),
        ),
        // bne x5,x6,-4096
        (
            0x0001_1078,
            0x8062_9063,
            [0x0062_9463, 0x03C0_006F, 0xFF9E_F06F].as_slice(),
        ),
    ];
    check_blocks(&rt, long_text(), &rows);
}

#[test]
fn traps_and_jumps_out_of_the_text_park(rt: HostRuntime) {
    let rows = [
        // ebreak
        (0x0001_0078, 0x0010_0073),
        // jal x1,12
        (0x0001_0078, 0x00C0_00EF),
        // jal x1,-4
        (0x0001_0078, 0xFFDF_F0EF),
        // jal x1,6
        (0x0001_0078, 0x0060_00EF),
        // jal x0,4096
        (0x0001_0078, 0x0000_106F),
        // csrrw x0,0x300,x0
        (0x0001_0078, 0x3000_1073),
        // no word, a compressed word, all ones
        (0x0001_0078, 0x0000_0000),
        (0x0001_0078, 0x0000_8082),
        (0x0001_0078, 0xFFFF_FFFF),
        // HGATE, HLEAVE, HSITE x31, HKEY x0, HSTOP, HRESTART, HCALL 0, HPARK 1
        (0x0001_0078, 0x0000_000B),
        (0x0001_0078, 0x0000_100B),
        (0x0001_0078, 0x0000_2F8B),
        (0x0001_0078, 0x0000_300B),
        (0x0001_0078, 0x0000_400B),
        (0x0001_0078, 0x0000_500B),
        (0x0001_0078, 0x0000_600B),
        (0x0001_0078, 0x0000_708B),
    ];
    for (pc, word) in rows {
        assert_eq!(rt;
            block_in(three_words(), pc, word),
            padded(&[PARK]),
            "at {word}"
        );
    }
    assert_eq!(rt; Some(guard_block()), padded(&[PARK]));
}

/// To the first address behind the text, to the last word before it, to a target that is 2 modulo
/// 4, and farther out.
#[test]
fn branches_out_of_the_text_park_where_they_are_taken(rt: HostRuntime) {
    let rows = [
        // beq x5,x6,4
        (0x0001_0080, 0x0062_8263),
        // beq x5,x6,-4
        (0x0001_0078, 0xFE62_8EE3),
        // beq x5,x6,6
        (0x0001_0078, 0x0062_8363),
        // beq x5,x6,2048
        (0x0001_0078, 0x0062_80E3),
    ];
    let words = [0x0062_8463, 0x03C0_006F, PARK];
    for (pc, word) in rows {
        assert_eq!(rt;
            block_in(three_words(), pc, word),
            padded(&words),
            "at {word}"
        );
    }
}

fn blocks_of(alloc: Global, text: &[u32], layout: Layout) -> Result<Vec<u32>, NoMemory> {
    if layout.is_lawful() && (layout.text_end - layout.text_start) / 4 == text.len() as u64 {
        blocks(alloc, text, &layout)
    } else {
        Ok(Vec::new(alloc))
    }
}

/// The blocks of `addi x10,x0,7`, `addi x17,x0,93` and `ecall`, and the guard block.
#[test]
fn blocks_of_a_program_that_exits(rt: HostRuntime) -> Result<(), Fail> {
    let words = blocks_of(rt.alloc(), &EXITS, three_words())?;
    let expected = [
        [0x0070_0513, 0x03C0_006F].as_slice(),
        [0x05D0_0893, 0x03C0_006F].as_slice(),
        [
            0xFFF0_3C23,
            0x4110_0FB7,
            0x334F_8FE7,
            0xFF00_3F03,
            0xFF80_3F83,
            0x0000_600B,
            0x0280_006F,
        ]
        .as_slice(),
        [PARK].as_slice(),
    ];
    assert_eq!(rt; words.len(), 64);
    for (i, (block, words)) in words.chunks(BLOCK_WORDS).zip(expected).enumerate() {
        let padded = padded(words).unwrap_or([0; BLOCK_WORDS]);
        assert_eq!(rt; block, padded.as_slice(), "at {i}");
    }
    Ok(())
}

/// The first and the last word of each helper, and those words that depend on the layout.
#[test]
fn helpers_stand_at_their_offsets(rt: HostRuntime) -> Result<(), Fail> {
    let words = helpers(rt.alloc(), &three_words())?;
    let rows = [
        // LOAD1: sd x31,-48(x0)
        (0, 0xFDF0_3823),
        // and its word 8: lui x30,0x40000
        (7, 0x4000_0F37),
        // and its words 10 and 11: lui x30,0x10
        (9, 0x0001_0F37),
        // addi x30,x30,120
        (10, 0x078F_0F13),
        // and its last: jal x0,516
        (15, 0x2040_006F),
        // LOAD8's word 10: lui x30,0x10
        (57, 0x0001_0F37),
        // addi x30,x30,116
        (58, 0x074F_0F13),
        // STORE8's last: jal x0,128
        (127, 0x0800_006F),
        // JUMP: sd x30,-16(x0)
        (128, 0xFFE0_3823),
        // and its last: jalr x0,0(x31)
        (143, 0x000F_8067),
        // LTAIL: srli x30,x31,8
        (144, 0x008F_DF13),
        // and its last: jalr x0,0(x30)
        (158, 0x000F_0067),
        // STAIL: srli x30,x31,8
        (159, 0x008F_DF13),
        // and its word 12: lui x31,0x1
        (170, 0x0000_1FB7),
        // and its last: jalr x0,0(x30)
        (204, 0x000F_0067),
        // APPEND: sd x31,-48(x0)
        (205, 0xFDF0_3823),
        // and its last: jalr x0,0(x30)
        (228, 0x000F_0067),
        // RESTART: lui x28,0x44000
        (229, 0x4400_0E37),
        // and its word 12: lui x31,0x42001
        (240, 0x4200_1FB7),
        // and its word 47: ld x30,240(x31)
        (275, 0x0F0F_BF03),
        // and its last: jalr x0,512(x31)
        (278, 0x200F_8067),
        // FAULT, FULL and LOGFULL: HPARK 2, 3 and 4
        (279, 0x0000_710B),
        (280, 0x0000_718B),
        (281, 0x0000_720B),
    ];
    assert_eq!(rt; words.len(), HELPER_WORDS);
    for (index, word) in rows {
        assert_eq!(rt; words.get(index), Some(&word), "at {index}");
    }
    Ok(())
}
