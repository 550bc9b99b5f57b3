//! The word of an instruction (RISC-V Unprivileged ISA 20191213, chapter 24; the gate
//! instructions are this project's own).

ghost use Rattle.std.specs.Prelude.{◌≡◌, ℕ, ◌+◌, ◌*◌, ◌^◌, ◌<◌};
ghost use Rattle.rv_decode.specs.Instruction.{instr_of};
ghost use Rattle.rv_decode.specs.Encoding.{word_of, imm_bits, imm_w_bits, ImmFits, ImmWFits, IsEncodable, HasRegisters};

use crate::formats::{b_format, i_format, j_format, r_format, s_format, u_format, unsigned_of};
use crate::selectors::{
    branch_funct3, immediate_funct3, immediate_word_funct3, load_funct3, register_funct3,
    register_funct7, register_word_funct3, register_word_funct7, store_funct3,
};
use rv_decode::{ImmOp, ImmWOp, Instr};

/// The word of an instruction that has one: `decode` gives the instruction back, and of a decoded
/// instruction this is the word that was decoded.
pub fn encode(instr: &Instr) -> u32
    requires { IsEncodable instr.now }
    ensures word { result ≡ word_of instr.now }
    ensures decodes { instr_of result ≡ instr.now }
    ensures again { (word : ℕ) → word < 2 ^ 32 → instr_of word ≡ instr.now → result ≡ word }
{
    encode_by_format(instr)
}

/// The word, by the format of the instruction. An instruction holds registers of the 32 alone.
fn encode_by_format(instr: &Instr) -> u32
    requires { IsEncodable instr.now }
    ensures word { result ≡ word_of instr.now }
    ensures registers { HasRegisters instr.now }
{
    match *instr {
        Instr::Lui { rd, imm } => u_format(unsigned_of(32, imm), rd, 0b0110111),
        Instr::Auipc { rd, imm } => u_format(unsigned_of(32, imm), rd, 0b0010111),
        Instr::Jal { rd, imm } => j_format(unsigned_of(21, imm), rd, 0b1101111),
        Instr::Jalr { rd, rs1, imm } => i_format(unsigned_of(12, imm), rs1, 0b000, rd, 0b1100111),
        Instr::Branch { op, rs1, rs2, imm } => {
            let imm = unsigned_of(13, imm);
            b_format(imm, rs2, rs1, branch_funct3(op), 0b1100011)
        }
        Instr::Load { op, rd, rs1, imm } => {
            let imm = unsigned_of(12, imm);
            i_format(imm, rs1, load_funct3(op), rd, 0b0000011)
        }
        Instr::Store { op, rs1, rs2, imm } => {
            let imm = unsigned_of(12, imm);
            s_format(imm, rs2, rs1, store_funct3(op), 0b0100011)
        }
        Instr::OpImm { op, rd, rs1, imm } => {
            let imm = immediate_bits(op, imm);
            i_format(imm, rs1, immediate_funct3(op), rd, 0b0010011)
        }
        Instr::OpImmW { op, rd, rs1, imm } => {
            let imm = immediate_word_bits(op, imm);
            i_format(imm, rs1, immediate_word_funct3(op), rd, 0b0011011)
        }
        Instr::Op { op, rd, rs1, rs2 } => {
            let (high, low) = (register_funct7(op), register_funct3(op));
            r_format(high, rs2, rs1, low, rd, 0b0110011)
        }
        Instr::OpW { op, rd, rs1, rs2 } => {
            let (high, low) = (register_word_funct7(op), register_word_funct3(op));
            r_format(high, rs2, rs1, low, rd, 0b0111011)
        }
        Instr::Fence { word } => word,
        Instr::Ecall => 0x0000_0073,
        Instr::Ebreak => 0x0010_0073,
        Instr::Hgate => 0x0000_000B,
        Instr::Hleave => 0x0000_100B,
        Instr::Hsite { rd } => 0x0000_200B + ((rd.number() as u32) << 7),
        Instr::Hkey { rd } => 0x0000_300B + ((rd.number() as u32) << 7),
        Instr::Hstop => 0x0000_400B,
        Instr::Hrestart => 0x0000_500B,
        Instr::Hcall(false) => 0x0000_600B,
        Instr::Hcall(true) => 0x0000_608B,
        Instr::Hpark(cause) => 0x0000_700B + (cause.number() << 7),
        Instr::Illegal => unreachable!(),
    }
}

/// The twelve bits of an operation's immediate: a shift has its funct6 above the amount.
fn immediate_bits(op: ImmOp, imm: i64) -> u32
    requires { ImmFits op imm }
    ensures bits { result ≡ imm_bits op imm }
    ensures below { result < 2 ^ 12 }
{
    match op {
        ImmOp::Slli | ImmOp::Srli => imm as u32,
        ImmOp::Srai => (0b010000 << 6) + imm as u32,
        _ => unsigned_of(12, imm),
    }
}

/// The same at 32 bits: a shift has its funct7 above the amount.
fn immediate_word_bits(op: ImmWOp, imm: i64) -> u32
    requires { ImmWFits op imm }
    ensures bits { result ≡ imm_w_bits op imm }
    ensures below { result < 2 ^ 12 }
{
    match op {
        ImmWOp::Addiw => unsigned_of(12, imm),
        ImmWOp::Slliw | ImmWOp::Srliw => imm as u32,
        ImmWOp::Sraiw => (0b0100000 << 5) + imm as u32,
    }
}
