//! An instruction in one flat enum, by which a hart dispatches.

ghost use Rattle.std.specs.Prelude.{◌≡◌};
ghost use Rattle.hart_mem.specs.Operation.{instr_of_operation};

use rv_decode::{BranchOp, ImmOp, ImmWOp, Instr, LoadOp, RegOp, RegWOp, StoreOp};
use spec_base::{Park, Reg};

/// An instruction, of which each operation has a case of its own: one dispatch finds what it does. The
/// fields of a case are those of the instruction, in its order.
#[derive(Clone, Copy)]
pub enum Operation {
    Lui(Reg, i64),
    Auipc(Reg, i64),
    Jal(Reg, i64),
    Jalr(Reg, Reg, i64),
    Beq(Reg, Reg, i64),
    Bne(Reg, Reg, i64),
    Blt(Reg, Reg, i64),
    Bge(Reg, Reg, i64),
    Bltu(Reg, Reg, i64),
    Bgeu(Reg, Reg, i64),
    Lb(Reg, Reg, i64),
    Lh(Reg, Reg, i64),
    Lw(Reg, Reg, i64),
    Ld(Reg, Reg, i64),
    Lbu(Reg, Reg, i64),
    Lhu(Reg, Reg, i64),
    Lwu(Reg, Reg, i64),
    Sb(Reg, Reg, i64),
    Sh(Reg, Reg, i64),
    Sw(Reg, Reg, i64),
    Sd(Reg, Reg, i64),
    Addi(Reg, Reg, i64),
    Slti(Reg, Reg, i64),
    Sltiu(Reg, Reg, i64),
    Xori(Reg, Reg, i64),
    Ori(Reg, Reg, i64),
    Andi(Reg, Reg, i64),
    Slli(Reg, Reg, i64),
    Srli(Reg, Reg, i64),
    Srai(Reg, Reg, i64),
    Addiw(Reg, Reg, i64),
    Slliw(Reg, Reg, i64),
    Srliw(Reg, Reg, i64),
    Sraiw(Reg, Reg, i64),
    Add(Reg, Reg, Reg),
    Sll(Reg, Reg, Reg),
    Slt(Reg, Reg, Reg),
    Sltu(Reg, Reg, Reg),
    Xor(Reg, Reg, Reg),
    Srl(Reg, Reg, Reg),
    Or(Reg, Reg, Reg),
    And(Reg, Reg, Reg),
    Sub(Reg, Reg, Reg),
    Sra(Reg, Reg, Reg),
    Mul(Reg, Reg, Reg),
    Mulh(Reg, Reg, Reg),
    Mulhsu(Reg, Reg, Reg),
    Mulhu(Reg, Reg, Reg),
    Div(Reg, Reg, Reg),
    Divu(Reg, Reg, Reg),
    Rem(Reg, Reg, Reg),
    Remu(Reg, Reg, Reg),
    Addw(Reg, Reg, Reg),
    Sllw(Reg, Reg, Reg),
    Srlw(Reg, Reg, Reg),
    Subw(Reg, Reg, Reg),
    Sraw(Reg, Reg, Reg),
    Mulw(Reg, Reg, Reg),
    Divw(Reg, Reg, Reg),
    Divuw(Reg, Reg, Reg),
    Remw(Reg, Reg, Reg),
    Remuw(Reg, Reg, Reg),
    Fence(u32),
    Ecall,
    Ebreak,
    Hgate,
    Hleave,
    Hsite(Reg),
    Hkey(Reg),
    Hstop,
    Hrestart,
    Hcall(bool),
    Hpark(Park),
    Illegal,
}

impl Operation {
    /// The operation of an instruction.
    pub(crate) fn of(instr: Instr) -> Operation
        ensures { instr_of_operation result ≡ instr }
    {
        match instr {
            Instr::Lui { rd, imm } => Operation::Lui(rd, imm),
            Instr::Auipc { rd, imm } => Operation::Auipc(rd, imm),
            Instr::Jal { rd, imm } => Operation::Jal(rd, imm),
            Instr::Jalr { rd, rs1, imm } => Operation::Jalr(rd, rs1, imm),
            Instr::Branch { op, rs1, rs2, imm } => branch(op, rs1, rs2, imm),
            Instr::Load { op, rd, rs1, imm } => load(op, rd, rs1, imm),
            Instr::Store { op, rs1, rs2, imm } => store(op, rs1, rs2, imm),
            Instr::OpImm { op, rd, rs1, imm } => on_immediate(op, rd, rs1, imm),
            Instr::OpImmW { op, rd, rs1, imm } => on_immediate_w(op, rd, rs1, imm),
            Instr::Op { op, rd, rs1, rs2 } => on_registers(op, rd, rs1, rs2),
            Instr::OpW { op, rd, rs1, rs2 } => on_registers_w(op, rd, rs1, rs2),
            Instr::Fence { word } => Operation::Fence(word),
            Instr::Ecall => Operation::Ecall,
            Instr::Ebreak => Operation::Ebreak,
            Instr::Hgate => Operation::Hgate,
            Instr::Hleave => Operation::Hleave,
            Instr::Hsite { rd } => Operation::Hsite(rd),
            Instr::Hkey { rd } => Operation::Hkey(rd),
            Instr::Hstop => Operation::Hstop,
            Instr::Hrestart => Operation::Hrestart,
            Instr::Hcall(unhinted) => Operation::Hcall(unhinted),
            Instr::Hpark(cause) => Operation::Hpark(cause),
            Instr::Illegal => Operation::Illegal,
        }
    }
}

fn branch(op: BranchOp, rs1: Reg, rs2: Reg, imm: i64) -> Operation
    ensures { instr_of_operation result ≡ Instr.Branch op rs1 rs2 imm }
{
    match op {
        BranchOp::Beq => Operation::Beq(rs1, rs2, imm),
        BranchOp::Bne => Operation::Bne(rs1, rs2, imm),
        BranchOp::Blt => Operation::Blt(rs1, rs2, imm),
        BranchOp::Bge => Operation::Bge(rs1, rs2, imm),
        BranchOp::Bltu => Operation::Bltu(rs1, rs2, imm),
        BranchOp::Bgeu => Operation::Bgeu(rs1, rs2, imm),
    }
}

fn load(op: LoadOp, rd: Reg, rs1: Reg, imm: i64) -> Operation
    ensures { instr_of_operation result ≡ Instr.Load op rd rs1 imm }
{
    match op {
        LoadOp::Lb => Operation::Lb(rd, rs1, imm),
        LoadOp::Lh => Operation::Lh(rd, rs1, imm),
        LoadOp::Lw => Operation::Lw(rd, rs1, imm),
        LoadOp::Ld => Operation::Ld(rd, rs1, imm),
        LoadOp::Lbu => Operation::Lbu(rd, rs1, imm),
        LoadOp::Lhu => Operation::Lhu(rd, rs1, imm),
        LoadOp::Lwu => Operation::Lwu(rd, rs1, imm),
    }
}

fn store(op: StoreOp, rs1: Reg, rs2: Reg, imm: i64) -> Operation
    ensures { instr_of_operation result ≡ Instr.Store op rs1 rs2 imm }
{
    match op {
        StoreOp::Sb => Operation::Sb(rs1, rs2, imm),
        StoreOp::Sh => Operation::Sh(rs1, rs2, imm),
        StoreOp::Sw => Operation::Sw(rs1, rs2, imm),
        StoreOp::Sd => Operation::Sd(rs1, rs2, imm),
    }
}

fn on_immediate(op: ImmOp, rd: Reg, rs1: Reg, imm: i64) -> Operation
    ensures { instr_of_operation result ≡ Instr.OpImm op rd rs1 imm }
{
    match op {
        ImmOp::Addi => Operation::Addi(rd, rs1, imm),
        ImmOp::Slti => Operation::Slti(rd, rs1, imm),
        ImmOp::Sltiu => Operation::Sltiu(rd, rs1, imm),
        ImmOp::Xori => Operation::Xori(rd, rs1, imm),
        ImmOp::Ori => Operation::Ori(rd, rs1, imm),
        ImmOp::Andi => Operation::Andi(rd, rs1, imm),
        ImmOp::Slli => Operation::Slli(rd, rs1, imm),
        ImmOp::Srli => Operation::Srli(rd, rs1, imm),
        ImmOp::Srai => Operation::Srai(rd, rs1, imm),
    }
}

fn on_immediate_w(op: ImmWOp, rd: Reg, rs1: Reg, imm: i64) -> Operation
    ensures { instr_of_operation result ≡ Instr.OpImmW op rd rs1 imm }
{
    match op {
        ImmWOp::Addiw => Operation::Addiw(rd, rs1, imm),
        ImmWOp::Slliw => Operation::Slliw(rd, rs1, imm),
        ImmWOp::Srliw => Operation::Srliw(rd, rs1, imm),
        ImmWOp::Sraiw => Operation::Sraiw(rd, rs1, imm),
    }
}

fn on_registers(op: RegOp, rd: Reg, rs1: Reg, rs2: Reg) -> Operation
    ensures { instr_of_operation result ≡ Instr.Op op rd rs1 rs2 }
{
    match op {
        RegOp::Add => Operation::Add(rd, rs1, rs2),
        RegOp::Sll => Operation::Sll(rd, rs1, rs2),
        RegOp::Slt => Operation::Slt(rd, rs1, rs2),
        RegOp::Sltu => Operation::Sltu(rd, rs1, rs2),
        RegOp::Xor => Operation::Xor(rd, rs1, rs2),
        RegOp::Srl => Operation::Srl(rd, rs1, rs2),
        RegOp::Or => Operation::Or(rd, rs1, rs2),
        RegOp::And => Operation::And(rd, rs1, rs2),
        RegOp::Sub => Operation::Sub(rd, rs1, rs2),
        RegOp::Sra => Operation::Sra(rd, rs1, rs2),
        RegOp::Mul => Operation::Mul(rd, rs1, rs2),
        RegOp::Mulh => Operation::Mulh(rd, rs1, rs2),
        RegOp::Mulhsu => Operation::Mulhsu(rd, rs1, rs2),
        RegOp::Mulhu => Operation::Mulhu(rd, rs1, rs2),
        RegOp::Div => Operation::Div(rd, rs1, rs2),
        RegOp::Divu => Operation::Divu(rd, rs1, rs2),
        RegOp::Rem => Operation::Rem(rd, rs1, rs2),
        RegOp::Remu => Operation::Remu(rd, rs1, rs2),
    }
}

fn on_registers_w(op: RegWOp, rd: Reg, rs1: Reg, rs2: Reg) -> Operation
    ensures { instr_of_operation result ≡ Instr.OpW op rd rs1 rs2 }
{
    match op {
        RegWOp::Addw => Operation::Addw(rd, rs1, rs2),
        RegWOp::Sllw => Operation::Sllw(rd, rs1, rs2),
        RegWOp::Srlw => Operation::Srlw(rd, rs1, rs2),
        RegWOp::Subw => Operation::Subw(rd, rs1, rs2),
        RegWOp::Sraw => Operation::Sraw(rd, rs1, rs2),
        RegWOp::Mulw => Operation::Mulw(rd, rs1, rs2),
        RegWOp::Divw => Operation::Divw(rd, rs1, rs2),
        RegWOp::Divuw => Operation::Divuw(rd, rs1, rs2),
        RegWOp::Remw => Operation::Remw(rd, rs1, rs2),
        RegWOp::Remuw => Operation::Remuw(rd, rs1, rs2),
    }
}
