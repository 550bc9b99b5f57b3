//! Words and their instructions. The words of RV64IM are from the listings of llvm-mc
//! (Debian LLVM 14.0.6, `llvm-mc -triple=riscv64 -mattr=+m -show-encoding`), at least one for each
//! row of the table; the illegal ones are invalid to its disassembler with the same attributes,
//! or words of extensions that RV64IM leaves out.

use crate::{BranchOp, ImmOp, ImmWOp, Instr, LoadOp, RegOp, RegWOp, StoreOp, decode};
use spec_base::{Park, Reg};

fn x(number: u32) -> Reg {
    Reg::from_low_bits(number)
}

#[test]
fn decodes_jumps_and_branches(rt: HostRuntime) {
    let rows = [
        (
            0x4110_0FB7,
            Instr::Lui {
                rd: x(31),
                imm: 0x4110_0000,
            },
        ),
        (
            0x8000_00B7,
            Instr::Lui {
                rd: x(1),
                imm: -0x8000_0000,
            },
        ),
        (
            0xFFFF_F297,
            Instr::Auipc {
                rd: x(5),
                imm: -4096,
            },
        ),
        (0x03C0_006F, Instr::Jal { rd: x(0), imm: 60 }),
        (0xFB9F_F0EF, Instr::Jal { rd: x(1), imm: -72 }),
        (
            0xFF81_00E7,
            Instr::Jalr {
                rd: x(1),
                rs1: x(2),
                imm: -8,
            },
        ),
    ];
    for (word, instr) in rows {
        assert_eq!(rt; decode(word), instr, "at {word}");
    }
    let branches = [
        (0x0062_8463, BranchOp::Beq, 5, 6, 8),
        (0xFE62_9EE3, BranchOp::Bne, 5, 6, -4),
        (0x7E83_CFE3, BranchOp::Blt, 7, 8, 4094),
        (0x80A4_D063, BranchOp::Bge, 9, 10, -4096),
        (0x00C5_E0E3, BranchOp::Bltu, 11, 12, 2048),
        (0x40E6_F063, BranchOp::Bgeu, 13, 14, 1024),
    ];
    for (word, op, rs1, rs2, imm) in branches {
        let instr = Instr::Branch {
            op,
            rs1: x(rs1),
            rs2: x(rs2),
            imm,
        };
        assert_eq!(rt; decode(word), instr, "at {word}");
    }
}

#[test]
fn decodes_loads_and_stores(rt: HostRuntime) {
    let loads = [
        (0xFFF1_0083, LoadOp::Lb, 1, 2, -1),
        (0x0022_1183, LoadOp::Lh, 3, 4, 2),
        (0x7FF3_2283, LoadOp::Lw, 5, 6, 2047),
        (0xFF80_3F83, LoadOp::Ld, 31, 0, -8),
        (0x8004_4383, LoadOp::Lbu, 7, 8, -2048),
        (0x0065_5483, LoadOp::Lhu, 9, 10, 6),
        (0x00C6_6583, LoadOp::Lwu, 11, 12, 12),
    ];
    for (word, op, rd, rs1, imm) in loads {
        let instr = Instr::Load {
            op,
            rd: x(rd),
            rs1: x(rs1),
            imm,
        };
        assert_eq!(rt; decode(word), instr, "at {word}");
    }
    let stores = [
        (0xFE11_0FA3, StoreOp::Sb, 2, 1, -1),
        (0x0232_1123, StoreOp::Sh, 4, 3, 34),
        (0x7E53_2FA3, StoreOp::Sw, 6, 5, 2047),
        (0xFFF0_3C23, StoreOp::Sd, 0, 31, -8),
    ];
    for (word, op, rs1, rs2, imm) in stores {
        let instr = Instr::Store {
            op,
            rs1: x(rs1),
            rs2: x(rs2),
            imm,
        };
        assert_eq!(rt; decode(word), instr, "at {word}");
    }
}

#[test]
fn decodes_operations_on_immediates(rt: HostRuntime) {
    let operations = [
        (0x0070_0513, ImmOp::Addi, 10, 0, 7),
        (0xFFB1_2093, ImmOp::Slti, 1, 2, -5),
        (0x0052_3193, ImmOp::Sltiu, 3, 4, 5),
        (0xFFF3_4293, ImmOp::Xori, 5, 6, -1),
        (0x0FF4_6393, ImmOp::Ori, 7, 8, 255),
        (0x8005_7493, ImmOp::Andi, 9, 10, -2048),
        (0x03F6_1593, ImmOp::Slli, 11, 12, 63),
        (0x0207_5693, ImmOp::Srli, 13, 14, 32),
        (0x4218_5793, ImmOp::Srai, 15, 16, 33),
    ];
    for (word, op, rd, rs1, imm) in operations {
        let instr = Instr::OpImm {
            op,
            rd: x(rd),
            rs1: x(rs1),
            imm,
        };
        assert_eq!(rt; decode(word), instr, "at {word}");
    }
    let word_operations = [
        (0xFFD9_089B, ImmWOp::Addiw, 17, 18, -3),
        (0x01FA_199B, ImmWOp::Slliw, 19, 20, 31),
        (0x010B_5A9B, ImmWOp::Srliw, 21, 22, 16),
        (0x401C_5B9B, ImmWOp::Sraiw, 23, 24, 1),
    ];
    for (word, op, rd, rs1, imm) in word_operations {
        let instr = Instr::OpImmW {
            op,
            rd: x(rd),
            rs1: x(rs1),
            imm,
        };
        assert_eq!(rt; decode(word), instr, "at {word}");
    }
}

#[test]
fn decodes_operations_on_registers(rt: HostRuntime) {
    let operations = [
        (0x0031_00B3, RegOp::Add, 1, 2, 3),
        (0x0062_9233, RegOp::Sll, 4, 5, 6),
        (0x0094_23B3, RegOp::Slt, 7, 8, 9),
        (0x0026_3533, RegOp::Sltu, 10, 12, 2),
        (0x00F7_46B3, RegOp::Xor, 13, 14, 15),
        (0x0128_D833, RegOp::Srl, 16, 17, 18),
        (0x015A_69B3, RegOp::Or, 19, 20, 21),
        (0x018B_FB33, RegOp::And, 22, 23, 24),
        (0x41BD_0CB3, RegOp::Sub, 25, 26, 27),
        (0x41EE_DE33, RegOp::Sra, 28, 29, 30),
        (0x0231_00B3, RegOp::Mul, 1, 2, 3),
        (0x0262_9233, RegOp::Mulh, 4, 5, 6),
        (0x0294_23B3, RegOp::Mulhsu, 7, 8, 9),
        (0x0273_3533, RegOp::Mulhu, 10, 6, 7),
        (0x02D6_45B3, RegOp::Div, 11, 12, 13),
        (0x0307_D733, RegOp::Divu, 14, 15, 16),
        (0x0339_68B3, RegOp::Rem, 17, 18, 19),
        (0x036A_FA33, RegOp::Remu, 20, 21, 22),
    ];
    for (word, op, rd, rs1, rs2) in operations {
        let instr = Instr::Op {
            op,
            rd: x(rd),
            rs1: x(rs1),
            rs2: x(rs2),
        };
        assert_eq!(rt; decode(word), instr, "at {word}");
    }
    let word_operations = [
        (0x0031_00BB, RegWOp::Addw, 1, 2, 3),
        (0x0062_923B, RegWOp::Sllw, 4, 5, 6),
        (0x0094_53BB, RegWOp::Srlw, 7, 8, 9),
        (0x40C5_853B, RegWOp::Subw, 10, 11, 12),
        (0x40F7_56BB, RegWOp::Sraw, 13, 14, 15),
        (0x0328_883B, RegWOp::Mulw, 16, 17, 18),
        (0x035A_49BB, RegWOp::Divw, 19, 20, 21),
        (0x038B_DB3B, RegWOp::Divuw, 22, 23, 24),
        (0x03BD_6CBB, RegWOp::Remw, 25, 26, 27),
        (0x03EE_FE3B, RegWOp::Remuw, 28, 29, 30),
    ];
    for (word, op, rd, rs1, rs2) in word_operations {
        let instr = Instr::OpW {
            op,
            rd: x(rd),
            rs1: x(rs1),
            rs2: x(rs2),
        };
        assert_eq!(rt; decode(word), instr, "at {word}");
    }
}

#[test]
fn decodes_fences_and_system_words(rt: HostRuntime) {
    // fence iorw, iorw; fence.tso; fence r, w; and one with all free fields set
    for word in [0x0FF0_000F, 0x8330_000F, 0x0210_000F, 0xFFFF_8F8F] {
        assert_eq!(rt; decode(word), Instr::Fence { word }, "at {word}");
    }
    assert_eq!(rt; decode(0x0000_0073), Instr::Ecall);
    assert_eq!(rt; decode(0x0010_0073), Instr::Ebreak);
}

/// The words of custom-0 by the project's own table.
#[test]
fn decodes_gate_instructions(rt: HostRuntime) {
    let rows = [
        (0x0000_000B, Instr::Hgate),
        (0x0000_100B, Instr::Hleave),
        (0x0000_200B, Instr::Hsite { rd: x(0) }),
        (0x0000_2F8B, Instr::Hsite { rd: x(31) }),
        (0x0000_300B, Instr::Hkey { rd: x(0) }),
        (0x0000_358B, Instr::Hkey { rd: x(11) }),
        (0x0000_400B, Instr::Hstop),
        (0x0000_500B, Instr::Hrestart),
        (0x0000_600B, Instr::Hcall(false)),
        (0x0000_608B, Instr::Hcall(true)),
    ];
    for (word, instr) in rows {
        assert_eq!(rt; decode(word), instr, "at {word}");
    }
    for number in 0..32u32 {
        let instr = match number {
            1 => Instr::Hpark(Park::Exit),
            2 => Instr::Hpark(Park::Fault),
            3 => Instr::Hpark(Park::Regions),
            4 => Instr::Hpark(Park::LogFull),
            5 => Instr::Hpark(Park::Store),
            _ => Instr::Illegal,
        };
        assert_eq!(rt; decode(0x0000_700B + 128 * number), instr, "at {number}");
    }
}

#[test]
fn refuses_words_beside_the_rows(rt: HostRuntime) {
    let words = [
        // no word, compressed words (c.nop, c.li a0, 0, ret), all ones
        0x0000_0000,
        0x0000_0001,
        0x0000_4501,
        0x0000_8082,
        0xFFFF_FFFF,
        // reserved funct3: jalr, branches, loads, stores, addiw, addw, fence
        0x0000_1067,
        0x0000_2063,
        0x0000_3063,
        0x0000_7003,
        0x0000_4023,
        0x0000_7023,
        0x0000_201B,
        0x0000_203B,
        0x0000_200F,
        // reserved bits above a shift amount: slli, srli, srai
        0x0400_1013,
        0x4000_1013,
        0x0400_5013,
        0x4400_5013,
        // a shift amount over 31 of slliw, srliw, sraiw; slliw by funct7 of sraiw
        0x0200_101B,
        0x0200_501B,
        0x4200_501B,
        0x4000_101B,
        // reserved funct7: add, sll, slt, srl, add of others; sllw, and mulh at 32 bits
        0x0400_0033,
        0x4000_1033,
        0x4000_2033,
        0x4200_5033,
        0x2000_1033,
        0x4000_103B,
        0x0200_103B,
        // fence.i, uret, sret, mret, wfi, ecall with rd, ecall with rs1
        0x0000_100F,
        0x0020_0073,
        0x1020_0073,
        0x3020_0073,
        0x1050_0073,
        0x0000_00F3,
        0x0000_8073,
        // csrw mstatus, rdcycle
        0x3000_1073,
        0xC000_2573,
        // lr.w, amoadd.d, flw, fsw, fadd.s, fmadd.d
        0x1005_A52F,
        0x00C5_B52F,
        0x0001_2087,
        0x0011_2027,
        0x0031_70D3,
        0x2231_70C3,
        // custom-1, custom-2, custom-3
        0x0000_002B,
        0x0000_005B,
        0x0000_007B,
        // gate words with a free field set: HGATE, HLEAVE, HSITE, HKEY, HSTOP, HRESTART, HCALL 2, HPARK
        0x0000_008B,
        0x0000_900B,
        0x0000_A00B,
        0x8000_300B,
        0x0000_408B,
        0x0100_500B,
        0x0000_610B,
        0x0000_F08B,
    ];
    for word in words {
        assert_eq!(rt; decode(word), Instr::Illegal, "at {word}");
    }
}
