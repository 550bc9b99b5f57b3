//! Instructions by their mnemonics, with operands in the order of assembler listings.

ghost use Rattle.std.specs.Prelude.{◌≡◌, ◌^◌, ◌<◌, pos};
ghost use Rattle.code_model.specs.Assembly.{lui, addi, andi, slli, srli, add, sub, ld, lwu, sd, sw, jalr, nop};

use rv_decode::{BranchOp, ImmOp, Instr, LoadOp, RegOp, StoreOp};
use spec_base::Reg;

/// The register x0 to x31 with this number.
pub fn x(number: u32) -> Reg
    requires { number < 32 }
    ensures { result ≡ number }
{
    Reg::from_low_bits(number)
}

/// `lui rd, field`, with a field of 20 bits.
pub fn lui(rd: Reg, field: u32) -> Instr
    requires { field < 2 ^ 20 }
    ensures { result ≡ lui rd field }
{
    let value = 4096 * field as i64;
    let imm = if value < 0x8000_0000 {
        value
    } else {
        value - 0x1_0000_0000
    };
    Instr::Lui { rd, imm }
}

/// `addi rd, rs1, imm`.
pub fn addi(rd: Reg, rs1: Reg, imm: i64) -> Instr
    ensures { result ≡ addi rd rs1 imm }
{
    let op = ImmOp::Addi;
    Instr::OpImm { op, rd, rs1, imm }
}

/// `andi rd, rs1, imm`.
pub fn andi(rd: Reg, rs1: Reg, imm: i64) -> Instr
    ensures { result ≡ andi rd rs1 imm }
{
    let op = ImmOp::Andi;
    Instr::OpImm { op, rd, rs1, imm }
}

/// `slli rd, rs1, amount`.
pub fn slli(rd: Reg, rs1: Reg, amount: u32) -> Instr
    ensures { result ≡ slli rd rs1 amount }
{
    let (op, imm) = (ImmOp::Slli, amount as i64);
    Instr::OpImm { op, rd, rs1, imm }
}

/// `srli rd, rs1, amount`.
pub fn srli(rd: Reg, rs1: Reg, amount: u32) -> Instr
    ensures { result ≡ srli rd rs1 amount }
{
    let (op, imm) = (ImmOp::Srli, amount as i64);
    Instr::OpImm { op, rd, rs1, imm }
}

/// `addi x0, x0, 0`, which does nothing.
pub fn nop() -> Instr
    ensures { result ≡ nop }
{
    addi(x(0), x(0), 0)
}

/// `add rd, rs1, rs2`.
pub fn add(rd: Reg, rs1: Reg, rs2: Reg) -> Instr
    ensures { result ≡ add rd rs1 rs2 }
{
    let op = RegOp::Add;
    Instr::Op { op, rd, rs1, rs2 }
}

/// `sub rd, rs1, rs2`.
pub fn sub(rd: Reg, rs1: Reg, rs2: Reg) -> Instr
    ensures { result ≡ sub rd rs1 rs2 }
{
    let op = RegOp::Sub;
    Instr::Op { op, rd, rs1, rs2 }
}

/// `ld rd, offset(rs1)`.
pub fn ld(rd: Reg, offset: i64, rs1: Reg) -> Instr
    ensures { result ≡ ld rd offset rs1 }
{
    let (op, imm) = (LoadOp::Ld, offset);
    Instr::Load { op, rd, rs1, imm }
}

/// `lwu rd, offset(rs1)`.
pub fn lwu(rd: Reg, offset: i64, rs1: Reg) -> Instr
    ensures { result ≡ lwu rd offset rs1 }
{
    let (op, imm) = (LoadOp::Lwu, offset);
    Instr::Load { op, rd, rs1, imm }
}

/// `sd rs2, offset(rs1)`.
pub fn sd(rs2: Reg, offset: i64, rs1: Reg) -> Instr
    ensures { result ≡ sd rs2 offset rs1 }
{
    let (op, imm) = (StoreOp::Sd, offset);
    Instr::Store { op, rs1, rs2, imm }
}

/// `sw rs2, offset(rs1)`.
pub fn sw(rs2: Reg, offset: i64, rs1: Reg) -> Instr
    ensures { result ≡ sw rs2 offset rs1 }
{
    let (op, imm) = (StoreOp::Sw, offset);
    Instr::Store { op, rs1, rs2, imm }
}

/// `jal rd, distance`.
pub fn jal(rd: Reg, distance: i64) -> Instr
    ensures { result ≡ Instr.Jal rd distance }
{
    let imm = distance;
    Instr::Jal { rd, imm }
}

/// `jalr rd, offset(rs1)`.
pub fn jalr(rd: Reg, offset: i64, rs1: Reg) -> Instr
    ensures { result ≡ jalr rd offset rs1 }
{
    let imm = offset;
    Instr::Jalr { rd, rs1, imm }
}

/// `beq rs1, rs2, distance`.
pub fn beq(rs1: Reg, rs2: Reg, distance: i64) -> Instr
    ensures { result ≡ Instr.Branch BranchOp.Beq rs1 rs2 distance }
{
    branch(BranchOp::Beq, rs1, rs2, distance)
}

/// `bne rs1, rs2, distance`.
pub fn bne(rs1: Reg, rs2: Reg, distance: i64) -> Instr
    ensures { result ≡ Instr.Branch BranchOp.Bne rs1 rs2 distance }
{
    branch(BranchOp::Bne, rs1, rs2, distance)
}

/// `bltu rs1, rs2, distance`.
pub fn bltu(rs1: Reg, rs2: Reg, distance: i64) -> Instr
    ensures { result ≡ Instr.Branch BranchOp.Bltu rs1 rs2 distance }
{
    branch(BranchOp::Bltu, rs1, rs2, distance)
}

/// `bgeu rs1, rs2, distance`.
pub fn bgeu(rs1: Reg, rs2: Reg, distance: i64) -> Instr
    ensures { result ≡ Instr.Branch BranchOp.Bgeu rs1 rs2 distance }
{
    branch(BranchOp::Bgeu, rs1, rs2, distance)
}

/// A branch over a distance in bytes.
fn branch(op: BranchOp, rs1: Reg, rs2: Reg, distance: i64) -> Instr
    ensures { result ≡ Instr.Branch op rs1 rs2 distance }
{
    let imm = distance;
    Instr::Branch { op, rs1, rs2, imm }
}

/// `HKEY rd`.
pub fn hkey(rd: Reg) -> Instr
    ensures { result ≡ Instr.Hkey rd }
{
    Instr::Hkey { rd }
}

/// `HSITE rd`.
pub fn hsite(rd: Reg) -> Instr
    ensures { result ≡ Instr.Hsite rd }
{
    Instr::Hsite { rd }
}
