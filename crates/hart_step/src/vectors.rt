//! What the instructions compute on 0, 1, -1, the least and the greatest number. The results are
//! from a script over Python's integers, the words from the manual's table of encodings.

// The word of -1, and those of the least and of the greatest signed number.
const ONES: u64 = 0xFFFF_FFFF_FFFF_FFFF;

const LEAST: u64 = 0x8000_0000_0000_0000;

const GREATEST: u64 = 0x7FFF_FFFF_FFFF_FFFF;

/// The first operands, in x6.
pub(crate) const OPERANDS: [u64; 5] = [0, 1, ONES, LEAST, GREATEST];

/// Words of the form `op x5, x6, x7` or `op x5, x6, imm`, then what x7 holds, and what x5
/// becomes at each first operand.
pub(crate) const RESULTS: [(u32, u64, [u64; 5]); 199] = [
    // ADD
    (0x0073_02B3, 0, [0, 1, ONES, LEAST, GREATEST]),
    (0x0073_02B3, 1, [1, 2, 0, 0x8000_0000_0000_0001, LEAST]),
    (
        0x0073_02B3,
        ONES,
        [ONES, 0, ONES - 1, GREATEST, 0x7FFF_FFFF_FFFF_FFFE],
    ),
    (
        0x0073_02B3,
        LEAST,
        [LEAST, 0x8000_0000_0000_0001, GREATEST, 0, ONES],
    ),
    (
        0x0073_02B3,
        GREATEST,
        [GREATEST, LEAST, 0x7FFF_FFFF_FFFF_FFFE, ONES, ONES - 1],
    ),
    // SUB
    (0x4073_02B3, 0, [0, 1, ONES, LEAST, GREATEST]),
    (
        0x4073_02B3,
        1,
        [ONES, 0, ONES - 1, GREATEST, 0x7FFF_FFFF_FFFF_FFFE],
    ),
    (0x4073_02B3, ONES, [1, 2, 0, 0x8000_0000_0000_0001, LEAST]),
    (
        0x4073_02B3,
        LEAST,
        [LEAST, 0x8000_0000_0000_0001, GREATEST, 0, ONES],
    ),
    (
        0x4073_02B3,
        GREATEST,
        [0x8000_0000_0000_0001, 0x8000_0000_0000_0002, LEAST, 1, 0],
    ),
    // SLL
    (0x0073_12B3, 0, [0, 1, ONES, LEAST, GREATEST]),
    (0x0073_12B3, 1, [0, 2, ONES - 1, 0, ONES - 1]),
    (0x0073_12B3, ONES, [0, LEAST, LEAST, 0, LEAST]),
    (0x0073_12B3, LEAST, [0, 1, ONES, LEAST, GREATEST]),
    (0x0073_12B3, GREATEST, [0, LEAST, LEAST, 0, LEAST]),
    // SLT
    (0x0073_22B3, 0, [0, 0, 1, 1, 0]),
    (0x0073_22B3, 1, [1, 0, 1, 1, 0]),
    (0x0073_22B3, ONES, [0, 0, 0, 1, 0]),
    (0x0073_22B3, LEAST, [0, 0, 0, 0, 0]),
    (0x0073_22B3, GREATEST, [1, 1, 1, 1, 0]),
    // SLTU
    (0x0073_32B3, 0, [0, 0, 0, 0, 0]),
    (0x0073_32B3, 1, [1, 0, 0, 0, 0]),
    (0x0073_32B3, ONES, [1, 1, 0, 1, 1]),
    (0x0073_32B3, LEAST, [1, 1, 0, 0, 1]),
    (0x0073_32B3, GREATEST, [1, 1, 0, 0, 0]),
    // XOR
    (0x0073_42B3, 0, [0, 1, ONES, LEAST, GREATEST]),
    (
        0x0073_42B3,
        1,
        [1, 0, ONES - 1, 0x8000_0000_0000_0001, 0x7FFF_FFFF_FFFF_FFFE],
    ),
    (0x0073_42B3, ONES, [ONES, ONES - 1, 0, GREATEST, LEAST]),
    (
        0x0073_42B3,
        LEAST,
        [LEAST, 0x8000_0000_0000_0001, GREATEST, 0, ONES],
    ),
    (
        0x0073_42B3,
        GREATEST,
        [GREATEST, 0x7FFF_FFFF_FFFF_FFFE, LEAST, ONES, 0],
    ),
    // SRL
    (0x0073_52B3, 0, [0, 1, ONES, LEAST, GREATEST]),
    (
        0x0073_52B3,
        1,
        [0, 0, GREATEST, 0x4000_0000_0000_0000, 0x3FFF_FFFF_FFFF_FFFF],
    ),
    (0x0073_52B3, ONES, [0, 0, 1, 1, 0]),
    (0x0073_52B3, LEAST, [0, 1, ONES, LEAST, GREATEST]),
    (0x0073_52B3, GREATEST, [0, 0, 1, 1, 0]),
    // SRA
    (0x4073_52B3, 0, [0, 1, ONES, LEAST, GREATEST]),
    (
        0x4073_52B3,
        1,
        [0, 0, ONES, 0xC000_0000_0000_0000, 0x3FFF_FFFF_FFFF_FFFF],
    ),
    (0x4073_52B3, ONES, [0, 0, ONES, ONES, 0]),
    (0x4073_52B3, LEAST, [0, 1, ONES, LEAST, GREATEST]),
    (0x4073_52B3, GREATEST, [0, 0, ONES, ONES, 0]),
    // OR
    (0x0073_62B3, 0, [0, 1, ONES, LEAST, GREATEST]),
    (
        0x0073_62B3,
        1,
        [1, 1, ONES, 0x8000_0000_0000_0001, GREATEST],
    ),
    (0x0073_62B3, ONES, [ONES, ONES, ONES, ONES, ONES]),
    (
        0x0073_62B3,
        LEAST,
        [LEAST, 0x8000_0000_0000_0001, ONES, LEAST, ONES],
    ),
    (
        0x0073_62B3,
        GREATEST,
        [GREATEST, GREATEST, ONES, ONES, GREATEST],
    ),
    // AND
    (0x0073_72B3, 0, [0, 0, 0, 0, 0]),
    (0x0073_72B3, 1, [0, 1, 1, 0, 1]),
    (0x0073_72B3, ONES, [0, 1, ONES, LEAST, GREATEST]),
    (0x0073_72B3, LEAST, [0, 0, LEAST, LEAST, 0]),
    (0x0073_72B3, GREATEST, [0, 1, GREATEST, 0, GREATEST]),
    // MUL
    (0x0273_02B3, 0, [0, 0, 0, 0, 0]),
    (0x0273_02B3, 1, [0, 1, ONES, LEAST, GREATEST]),
    (
        0x0273_02B3,
        ONES,
        [0, ONES, 1, LEAST, 0x8000_0000_0000_0001],
    ),
    (0x0273_02B3, LEAST, [0, LEAST, LEAST, 0, LEAST]),
    (
        0x0273_02B3,
        GREATEST,
        [0, GREATEST, 0x8000_0000_0000_0001, LEAST, 1],
    ),
    // MULH
    (0x0273_12B3, 0, [0, 0, 0, 0, 0]),
    (0x0273_12B3, 1, [0, 0, ONES, ONES, 0]),
    (0x0273_12B3, ONES, [0, ONES, 0, 0, ONES]),
    (
        0x0273_12B3,
        LEAST,
        [0, ONES, 0, 0x4000_0000_0000_0000, 0xC000_0000_0000_0000],
    ),
    (
        0x0273_12B3,
        GREATEST,
        [0, 0, ONES, 0xC000_0000_0000_0000, 0x3FFF_FFFF_FFFF_FFFF],
    ),
    // MULHSU
    (0x0273_22B3, 0, [0, 0, 0, 0, 0]),
    (0x0273_22B3, 1, [0, 0, ONES, ONES, 0]),
    (
        0x0273_22B3,
        ONES,
        [0, 0, ONES, LEAST, 0x7FFF_FFFF_FFFF_FFFE],
    ),
    (
        0x0273_22B3,
        LEAST,
        [0, 0, ONES, 0xC000_0000_0000_0000, 0x3FFF_FFFF_FFFF_FFFF],
    ),
    (
        0x0273_22B3,
        GREATEST,
        [0, 0, ONES, 0xC000_0000_0000_0000, 0x3FFF_FFFF_FFFF_FFFF],
    ),
    // MULHU
    (0x0273_32B3, 0, [0, 0, 0, 0, 0]),
    (0x0273_32B3, 1, [0, 0, 0, 0, 0]),
    (
        0x0273_32B3,
        ONES,
        [0, 0, ONES - 1, GREATEST, 0x7FFF_FFFF_FFFF_FFFE],
    ),
    (
        0x0273_32B3,
        LEAST,
        [0, 0, GREATEST, 0x4000_0000_0000_0000, 0x3FFF_FFFF_FFFF_FFFF],
    ),
    (
        0x0273_32B3,
        GREATEST,
        [
            0,
            0,
            0x7FFF_FFFF_FFFF_FFFE,
            0x3FFF_FFFF_FFFF_FFFF,
            0x3FFF_FFFF_FFFF_FFFF,
        ],
    ),
    // DIV
    (0x0273_42B3, 0, [ONES, ONES, ONES, ONES, ONES]),
    (0x0273_42B3, 1, [0, 1, ONES, LEAST, GREATEST]),
    (
        0x0273_42B3,
        ONES,
        [0, ONES, 1, LEAST, 0x8000_0000_0000_0001],
    ),
    (0x0273_42B3, LEAST, [0, 0, 0, 1, 0]),
    (0x0273_42B3, GREATEST, [0, 0, 0, ONES, 1]),
    // DIVU
    (0x0273_52B3, 0, [ONES, ONES, ONES, ONES, ONES]),
    (0x0273_52B3, 1, [0, 1, ONES, LEAST, GREATEST]),
    (0x0273_52B3, ONES, [0, 0, 1, 0, 0]),
    (0x0273_52B3, LEAST, [0, 0, 1, 1, 0]),
    (0x0273_52B3, GREATEST, [0, 0, 2, 1, 1]),
    // REM
    (0x0273_62B3, 0, [0, 1, ONES, LEAST, GREATEST]),
    (0x0273_62B3, 1, [0, 0, 0, 0, 0]),
    (0x0273_62B3, ONES, [0, 0, 0, 0, 0]),
    (0x0273_62B3, LEAST, [0, 1, ONES, 0, GREATEST]),
    (0x0273_62B3, GREATEST, [0, 1, ONES, ONES, 0]),
    // REMU
    (0x0273_72B3, 0, [0, 1, ONES, LEAST, GREATEST]),
    (0x0273_72B3, 1, [0, 0, 0, 0, 0]),
    (0x0273_72B3, ONES, [0, 1, 0, LEAST, GREATEST]),
    (0x0273_72B3, LEAST, [0, 1, GREATEST, 0, GREATEST]),
    (0x0273_72B3, GREATEST, [0, 1, 1, 1, 0]),
    // ADDW
    (0x0073_02BB, 0, [0, 1, ONES, 0, ONES]),
    (0x0073_02BB, 1, [1, 2, 0, 1, 0]),
    (0x0073_02BB, ONES, [ONES, 0, ONES - 1, ONES, ONES - 1]),
    (0x0073_02BB, LEAST, [0, 1, ONES, 0, ONES]),
    (0x0073_02BB, GREATEST, [ONES, 0, ONES - 1, ONES, ONES - 1]),
    // SUBW
    (0x4073_02BB, 0, [0, 1, ONES, 0, ONES]),
    (0x4073_02BB, 1, [ONES, 0, ONES - 1, ONES, ONES - 1]),
    (0x4073_02BB, ONES, [1, 2, 0, 1, 0]),
    (0x4073_02BB, LEAST, [0, 1, ONES, 0, ONES]),
    (0x4073_02BB, GREATEST, [1, 2, 0, 1, 0]),
    // SLLW
    (0x0073_12BB, 0, [0, 1, ONES, 0, ONES]),
    (0x0073_12BB, 1, [0, 2, ONES - 1, 0, ONES - 1]),
    (
        0x0073_12BB,
        ONES,
        [
            0,
            0xFFFF_FFFF_8000_0000,
            0xFFFF_FFFF_8000_0000,
            0,
            0xFFFF_FFFF_8000_0000,
        ],
    ),
    (0x0073_12BB, LEAST, [0, 1, ONES, 0, ONES]),
    (
        0x0073_12BB,
        GREATEST,
        [
            0,
            0xFFFF_FFFF_8000_0000,
            0xFFFF_FFFF_8000_0000,
            0,
            0xFFFF_FFFF_8000_0000,
        ],
    ),
    // SRLW
    (0x0073_52BB, 0, [0, 1, ONES, 0, ONES]),
    (0x0073_52BB, 1, [0, 0, 0x7FFF_FFFF, 0, 0x7FFF_FFFF]),
    (0x0073_52BB, ONES, [0, 0, 1, 0, 1]),
    (0x0073_52BB, LEAST, [0, 1, ONES, 0, ONES]),
    (0x0073_52BB, GREATEST, [0, 0, 1, 0, 1]),
    // SRAW
    (0x4073_52BB, 0, [0, 1, ONES, 0, ONES]),
    (0x4073_52BB, 1, [0, 0, ONES, 0, ONES]),
    (0x4073_52BB, ONES, [0, 0, ONES, 0, ONES]),
    (0x4073_52BB, LEAST, [0, 1, ONES, 0, ONES]),
    (0x4073_52BB, GREATEST, [0, 0, ONES, 0, ONES]),
    // MULW
    (0x0273_02BB, 0, [0, 0, 0, 0, 0]),
    (0x0273_02BB, 1, [0, 1, ONES, 0, ONES]),
    (0x0273_02BB, ONES, [0, ONES, 1, 0, 1]),
    (0x0273_02BB, LEAST, [0, 0, 0, 0, 0]),
    (0x0273_02BB, GREATEST, [0, ONES, 1, 0, 1]),
    // DIVW
    (0x0273_42BB, 0, [ONES, ONES, ONES, ONES, ONES]),
    (0x0273_42BB, 1, [0, 1, ONES, 0, ONES]),
    (0x0273_42BB, ONES, [0, ONES, 1, 0, 1]),
    (0x0273_42BB, LEAST, [ONES, ONES, ONES, ONES, ONES]),
    (0x0273_42BB, GREATEST, [0, ONES, 1, 0, 1]),
    // DIVUW
    (0x0273_52BB, 0, [ONES, ONES, ONES, ONES, ONES]),
    (0x0273_52BB, 1, [0, 1, ONES, 0, ONES]),
    (0x0273_52BB, ONES, [0, 0, 1, 0, 1]),
    (0x0273_52BB, LEAST, [ONES, ONES, ONES, ONES, ONES]),
    (0x0273_52BB, GREATEST, [0, 0, 1, 0, 1]),
    // REMW
    (0x0273_62BB, 0, [0, 1, ONES, 0, ONES]),
    (0x0273_62BB, 1, [0, 0, 0, 0, 0]),
    (0x0273_62BB, ONES, [0, 0, 0, 0, 0]),
    (0x0273_62BB, LEAST, [0, 1, ONES, 0, ONES]),
    (0x0273_62BB, GREATEST, [0, 0, 0, 0, 0]),
    // REMUW
    (0x0273_72BB, 0, [0, 1, ONES, 0, ONES]),
    (0x0273_72BB, 1, [0, 0, 0, 0, 0]),
    (0x0273_72BB, ONES, [0, 1, 0, 0, 0]),
    (0x0273_72BB, LEAST, [0, 1, ONES, 0, ONES]),
    (0x0273_72BB, GREATEST, [0, 1, 0, 0, 0]),
    // ADDI
    (0x0003_0293, 0, [0, 1, ONES, LEAST, GREATEST]),
    (0x0013_0293, 0, [1, 2, 0, 0x8000_0000_0000_0001, LEAST]),
    (
        0xFFF3_0293,
        0,
        [ONES, 0, ONES - 1, GREATEST, 0x7FFF_FFFF_FFFF_FFFE],
    ),
    (
        0x8003_0293,
        0,
        [
            0xFFFF_FFFF_FFFF_F800,
            0xFFFF_FFFF_FFFF_F801,
            0xFFFF_FFFF_FFFF_F7FF,
            0x7FFF_FFFF_FFFF_F800,
            0x7FFF_FFFF_FFFF_F7FF,
        ],
    ),
    (
        0x7FF3_0293,
        0,
        [
            0x7FF,
            0x800,
            0x7FE,
            0x8000_0000_0000_07FF,
            0x8000_0000_0000_07FE,
        ],
    ),
    // SLTI
    (0x0003_2293, 0, [0, 0, 1, 1, 0]),
    (0x0013_2293, 0, [1, 0, 1, 1, 0]),
    (0xFFF3_2293, 0, [0, 0, 0, 1, 0]),
    (0x8003_2293, 0, [0, 0, 0, 1, 0]),
    (0x7FF3_2293, 0, [1, 1, 1, 1, 0]),
    // SLTIU
    (0x0003_3293, 0, [0, 0, 0, 0, 0]),
    (0x0013_3293, 0, [1, 0, 0, 0, 0]),
    (0xFFF3_3293, 0, [1, 1, 0, 1, 1]),
    (0x8003_3293, 0, [1, 1, 0, 1, 1]),
    (0x7FF3_3293, 0, [1, 1, 0, 0, 0]),
    // XORI
    (0x0003_4293, 0, [0, 1, ONES, LEAST, GREATEST]),
    (
        0x0013_4293,
        0,
        [1, 0, ONES - 1, 0x8000_0000_0000_0001, 0x7FFF_FFFF_FFFF_FFFE],
    ),
    (0xFFF3_4293, 0, [ONES, ONES - 1, 0, GREATEST, LEAST]),
    (
        0x8003_4293,
        0,
        [
            0xFFFF_FFFF_FFFF_F800,
            0xFFFF_FFFF_FFFF_F801,
            0x7FF,
            0x7FFF_FFFF_FFFF_F800,
            0x8000_0000_0000_07FF,
        ],
    ),
    (
        0x7FF3_4293,
        0,
        [
            0x7FF,
            0x7FE,
            0xFFFF_FFFF_FFFF_F800,
            0x8000_0000_0000_07FF,
            0x7FFF_FFFF_FFFF_F800,
        ],
    ),
    // ORI
    (0x0003_6293, 0, [0, 1, ONES, LEAST, GREATEST]),
    (
        0x0013_6293,
        0,
        [1, 1, ONES, 0x8000_0000_0000_0001, GREATEST],
    ),
    (0xFFF3_6293, 0, [ONES, ONES, ONES, ONES, ONES]),
    (
        0x8003_6293,
        0,
        [
            0xFFFF_FFFF_FFFF_F800,
            0xFFFF_FFFF_FFFF_F801,
            ONES,
            0xFFFF_FFFF_FFFF_F800,
            ONES,
        ],
    ),
    (
        0x7FF3_6293,
        0,
        [0x7FF, 0x7FF, ONES, 0x8000_0000_0000_07FF, GREATEST],
    ),
    // ANDI
    (0x0003_7293, 0, [0, 0, 0, 0, 0]),
    (0x0013_7293, 0, [0, 1, 1, 0, 1]),
    (0xFFF3_7293, 0, [0, 1, ONES, LEAST, GREATEST]),
    (
        0x8003_7293,
        0,
        [0, 0, 0xFFFF_FFFF_FFFF_F800, LEAST, 0x7FFF_FFFF_FFFF_F800],
    ),
    (0x7FF3_7293, 0, [0, 1, 0x7FF, 0, 0x7FF]),
    // SLLI
    (0x0003_1293, 0, [0, 1, ONES, LEAST, GREATEST]),
    (0x0013_1293, 0, [0, 2, ONES - 1, 0, ONES - 1]),
    (
        0x01F3_1293,
        0,
        [
            0,
            0x8000_0000,
            0xFFFF_FFFF_8000_0000,
            0,
            0xFFFF_FFFF_8000_0000,
        ],
    ),
    (
        0x0203_1293,
        0,
        [
            0,
            0x1_0000_0000,
            0xFFFF_FFFF_0000_0000,
            0,
            0xFFFF_FFFF_0000_0000,
        ],
    ),
    (0x03F3_1293, 0, [0, LEAST, LEAST, 0, LEAST]),
    // SRLI
    (0x0003_5293, 0, [0, 1, ONES, LEAST, GREATEST]),
    (
        0x0013_5293,
        0,
        [0, 0, GREATEST, 0x4000_0000_0000_0000, 0x3FFF_FFFF_FFFF_FFFF],
    ),
    (
        0x01F3_5293,
        0,
        [0, 0, 0x1_FFFF_FFFF, 0x1_0000_0000, 0xFFFF_FFFF],
    ),
    (
        0x0203_5293,
        0,
        [0, 0, 0xFFFF_FFFF, 0x8000_0000, 0x7FFF_FFFF],
    ),
    (0x03F3_5293, 0, [0, 0, 1, 1, 0]),
    // SRAI
    (0x4003_5293, 0, [0, 1, ONES, LEAST, GREATEST]),
    (
        0x4013_5293,
        0,
        [0, 0, ONES, 0xC000_0000_0000_0000, 0x3FFF_FFFF_FFFF_FFFF],
    ),
    (
        0x41F3_5293,
        0,
        [0, 0, ONES, 0xFFFF_FFFF_0000_0000, 0xFFFF_FFFF],
    ),
    (
        0x4203_5293,
        0,
        [0, 0, ONES, 0xFFFF_FFFF_8000_0000, 0x7FFF_FFFF],
    ),
    (0x43F3_5293, 0, [0, 0, ONES, ONES, 0]),
    // ADDIW
    (0x0003_029B, 0, [0, 1, ONES, 0, ONES]),
    (0x0013_029B, 0, [1, 2, 0, 1, 0]),
    (0xFFF3_029B, 0, [ONES, 0, ONES - 1, ONES, ONES - 1]),
    (
        0x8003_029B,
        0,
        [
            0xFFFF_FFFF_FFFF_F800,
            0xFFFF_FFFF_FFFF_F801,
            0xFFFF_FFFF_FFFF_F7FF,
            0xFFFF_FFFF_FFFF_F800,
            0xFFFF_FFFF_FFFF_F7FF,
        ],
    ),
    (0x7FF3_029B, 0, [0x7FF, 0x800, 0x7FE, 0x7FF, 0x7FE]),
    // SLLIW
    (0x0003_129B, 0, [0, 1, ONES, 0, ONES]),
    (0x0013_129B, 0, [0, 2, ONES - 1, 0, ONES - 1]),
    (
        0x01F3_129B,
        0,
        [
            0,
            0xFFFF_FFFF_8000_0000,
            0xFFFF_FFFF_8000_0000,
            0,
            0xFFFF_FFFF_8000_0000,
        ],
    ),
    // SRLIW
    (0x0003_529B, 0, [0, 1, ONES, 0, ONES]),
    (0x0013_529B, 0, [0, 0, 0x7FFF_FFFF, 0, 0x7FFF_FFFF]),
    (0x01F3_529B, 0, [0, 0, 1, 0, 1]),
    // SRAIW
    (0x4003_529B, 0, [0, 1, ONES, 0, ONES]),
    (0x4013_529B, 0, [0, 0, ONES, 0, ONES]),
    (0x41F3_529B, 0, [0, 0, ONES, 0, ONES]),
];

/// Words of the form `op x6, x7, 8`, what x7 holds, and how far the pc goes at each first operand.
pub(crate) const BRANCHES: [(u32, u64, [u64; 5]); 30] = [
    // BEQ
    (0x0073_0463, 0, [8, 4, 4, 4, 4]),
    (0x0073_0463, 1, [4, 8, 4, 4, 4]),
    (0x0073_0463, ONES, [4, 4, 8, 4, 4]),
    (0x0073_0463, LEAST, [4, 4, 4, 8, 4]),
    (0x0073_0463, GREATEST, [4, 4, 4, 4, 8]),
    // BNE
    (0x0073_1463, 0, [4, 8, 8, 8, 8]),
    (0x0073_1463, 1, [8, 4, 8, 8, 8]),
    (0x0073_1463, ONES, [8, 8, 4, 8, 8]),
    (0x0073_1463, LEAST, [8, 8, 8, 4, 8]),
    (0x0073_1463, GREATEST, [8, 8, 8, 8, 4]),
    // BLT
    (0x0073_4463, 0, [4, 4, 8, 8, 4]),
    (0x0073_4463, 1, [8, 4, 8, 8, 4]),
    (0x0073_4463, ONES, [4, 4, 4, 8, 4]),
    (0x0073_4463, LEAST, [4, 4, 4, 4, 4]),
    (0x0073_4463, GREATEST, [8, 8, 8, 8, 4]),
    // BGE
    (0x0073_5463, 0, [8, 8, 4, 4, 8]),
    (0x0073_5463, 1, [4, 8, 4, 4, 8]),
    (0x0073_5463, ONES, [8, 8, 8, 4, 8]),
    (0x0073_5463, LEAST, [8, 8, 8, 8, 8]),
    (0x0073_5463, GREATEST, [4, 4, 4, 4, 8]),
    // BLTU
    (0x0073_6463, 0, [4, 4, 4, 4, 4]),
    (0x0073_6463, 1, [8, 4, 4, 4, 4]),
    (0x0073_6463, ONES, [8, 8, 4, 8, 8]),
    (0x0073_6463, LEAST, [8, 8, 4, 4, 8]),
    (0x0073_6463, GREATEST, [8, 8, 4, 4, 4]),
    // BGEU
    (0x0073_7463, 0, [8, 8, 8, 8, 8]),
    (0x0073_7463, 1, [4, 8, 8, 8, 8]),
    (0x0073_7463, ONES, [4, 4, 8, 4, 4]),
    (0x0073_7463, LEAST, [4, 4, 8, 8, 4]),
    (0x0073_7463, GREATEST, [4, 4, 8, 8, 8]),
];
