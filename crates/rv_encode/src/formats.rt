//! The formats of an instruction word, each of its fields (RISC-V Unprivileged ISA 20191213,
//! sections 2.2 and 2.3). An immediate is given whole, as the number of its bits.

ghost use Rattle.std.specs.Prelude.{◌≡◌, ◌+◌, ◌*◌, ◌^◌, ◌<◌, ◌≤◌};
ghost use Rattle.rv_decode.specs.Formats.{field_of, FitsIn, r_word, i_word, s_word, b_word, u_word, j_word};
ghost use Rattle.rv_decode.specs.Fields.{bits};

use spec_base::Reg;

/// An immediate as a number of so many bits, in two's complement.
pub fn unsigned_of(width: u32, imm: i64) -> u32
    requires some { 0 < width }
    requires most { width ≤ 32 }
    requires fits { FitsIn width imm }
    ensures number { result ≡ field_of width imm }
    ensures below { result < 2 ^ width }
{
    if imm < 0 {
        ((1u64 << width) - imm.unsigned_abs()) as u32
    } else {
        imm as u32
    }
}

/// A word of the R-type.
pub fn r_format(funct7: u32, rs2: Reg, rs1: Reg, funct3: u32, rd: Reg, opcode: u32) -> u32
    requires funct7 { funct7 < 128 }
    requires funct3 { funct3 < 8 }
    requires opcode { opcode < 128 }
    ensures word { result ≡ r_word funct7 rs2 rs1 funct3 rd opcode }
    ensures registers { (rs2 < 32) × (rs1 < 32) × (rd < 32) }
{
    (funct7 << 25)
        + ((rs2.number() as u32) << 20)
        + ((rs1.number() as u32) << 15)
        + (funct3 << 12)
        + ((rd.number() as u32) << 7)
        + opcode
}

/// A word of the I-type.
pub fn i_format(imm: u32, rs1: Reg, funct3: u32, rd: Reg, opcode: u32) -> u32
    requires imm { imm < 2 ^ 12 }
    requires funct3 { funct3 < 8 }
    requires opcode { opcode < 128 }
    ensures word { result ≡ i_word imm rs1 funct3 rd opcode }
    ensures registers { (rs1 < 32) × (rd < 32) }
{
    (imm << 20)
        + ((rs1.number() as u32) << 15)
        + (funct3 << 12)
        + ((rd.number() as u32) << 7)
        + opcode
}

/// A word of the S-type.
pub fn s_format(imm: u32, rs2: Reg, rs1: Reg, funct3: u32, opcode: u32) -> u32
    requires imm { imm < 2 ^ 12 }
    requires funct3 { funct3 < 8 }
    requires opcode { opcode < 128 }
    ensures word { result ≡ s_word imm rs2 rs1 funct3 opcode }
    ensures registers { (rs2 < 32) × (rs1 < 32) }
{
    ((imm >> 5) << 25)
        + ((rs2.number() as u32) << 20)
        + ((rs1.number() as u32) << 15)
        + (funct3 << 12)
        + ((imm & 0x1f) << 7)
        + opcode
}

/// A word of the B-type.
pub fn b_format(imm: u32, rs2: Reg, rs1: Reg, funct3: u32, opcode: u32) -> u32
    requires imm { imm < 2 ^ 13 }
    requires funct3 { funct3 < 8 }
    requires opcode { opcode < 128 }
    ensures word { result ≡ b_word imm rs2 rs1 funct3 opcode }
    ensures registers { (rs2 < 32) × (rs1 < 32) }
{
    ((imm >> 12) << 31)
        + (((imm >> 5) & 0x3f) << 25)
        + ((rs2.number() as u32) << 20)
        + ((rs1.number() as u32) << 15)
        + (funct3 << 12)
        + (((imm >> 1) & 0xf) << 8)
        + (((imm >> 11) & 0x1) << 7)
        + opcode
}

/// A word of the U-type.
pub fn u_format(imm: u32, rd: Reg, opcode: u32) -> u32
    requires opcode { opcode < 128 }
    ensures word { result ≡ u_word imm rd opcode }
    ensures registers { rd < 32 }
{
    ((imm >> 12) << 12) + ((rd.number() as u32) << 7) + opcode
}

/// A word of the J-type.
pub fn j_format(imm: u32, rd: Reg, opcode: u32) -> u32
    requires imm { imm < 2 ^ 21 }
    requires opcode { opcode < 128 }
    ensures word { result ≡ j_word imm rd opcode }
    ensures registers { rd < 32 }
{
    ((imm >> 20) << 31)
        + (((imm >> 1) & 0x3ff) << 21)
        + (((imm >> 11) & 0x1) << 20)
        + (((imm >> 12) & 0xff) << 12)
        + ((rd.number() as u32) << 7)
        + opcode
}
