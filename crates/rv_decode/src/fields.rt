//! The fields of an instruction word.

ghost use Rattle.std.specs.Prelude.{◌≡◌, ◌+◌, ◌*◌, ◌^◌, ◌<◌, ◌≤◌};
ghost use Rattle.rv_decode.specs.Fields.{bits, opcode, rd, funct3, rs1, rs2, funct7, sign_extended, i_imm, s_imm, b_imm, u_imm, j_imm};

use spec_base::Reg;

/// The number in the bits from `high` down to `low`.
pub fn bits_of(word: u32, high: u32, low: u32) -> u32
    requires order { low ≤ high }
    requires inside { high < 32 }
    ensures { result ≡ bits high low word }
{
    ((word as u64 >> low) % (1u64 << (high + 1 - low))) as u32
}

pub fn opcode_of(word: u32) -> u32
    ensures { result ≡ opcode word }
{
    word & 0x7f
}

pub fn rd_of(word: u32) -> Reg
    ensures { result ≡ rd word }
{
    Reg::from_low_bits(word >> 7)
}

pub fn funct3_of(word: u32) -> u32
    ensures { result ≡ funct3 word }
{
    (word >> 12) & 0x7
}

pub fn rs1_of(word: u32) -> Reg
    ensures { result ≡ rs1 word }
{
    Reg::from_low_bits(word >> 15)
}

pub fn rs2_of(word: u32) -> Reg
    ensures { result ≡ rs2 word }
{
    Reg::from_low_bits(word >> 20)
}

pub fn funct7_of(word: u32) -> u32
    ensures { result ≡ funct7 word }
{
    word >> 25
}

/// A number of `width` bits, read as two's complement.
pub fn signed_of(width: u32, value: u32) -> i64
    requires some { 0 < width }
    requires most { width ≤ 32 }
    requires fits { value < 2 ^ width }
    ensures { result ≡ sign_extended width value }
{
    let value = value as i64;
    if value < 1i64 << (width - 1) {
        value
    } else {
        value - (1i64 << width)
    }
}

pub fn i_immediate(word: u32) -> i64
    ensures { result ≡ i_imm word }
{
    signed_of(12, word >> 20)
}

pub fn s_immediate(word: u32) -> i64
    ensures { result ≡ s_imm word }
{
    signed_of(12, (bits_of(word, 31, 25) << 5) | bits_of(word, 11, 7))
}

pub fn b_immediate(word: u32) -> i64
    ensures { result ≡ b_imm word }
{
    let scattered = (bits_of(word, 31, 31) << 12)
        + (bits_of(word, 7, 7) << 11)
        + (bits_of(word, 30, 25) << 5)
        + (bits_of(word, 11, 8) << 1);
    signed_of(13, scattered)
}

pub fn u_immediate(word: u32) -> i64
    ensures { result ≡ u_imm word }
{
    signed_of(32, bits_of(word, 31, 12) << 12)
}

pub fn j_immediate(word: u32) -> i64
    ensures { result ≡ j_imm word }
{
    let scattered = (bits_of(word, 31, 31) << 20)
        + (bits_of(word, 19, 12) << 12)
        + (bits_of(word, 20, 20) << 11)
        + (bits_of(word, 30, 21) << 1);
    signed_of(21, scattered)
}
