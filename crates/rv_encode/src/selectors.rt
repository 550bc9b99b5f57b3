//! The fields that select an operation (RISC-V Unprivileged ISA 20191213, chapter 24).

ghost use Rattle.std.specs.Prelude.{◌≡◌, ◌<◌};
ghost use Rattle.rv_decode.specs.Encoding.{branch_funct3 as branch_field, load_funct3 as load_field, store_funct3 as store_field, imm_funct3, imm_w_funct3, reg_funct7, reg_funct3, reg_w_funct7, reg_w_funct3};

use rv_decode::{BranchOp, ImmOp, ImmWOp, LoadOp, RegOp, RegWOp, StoreOp};

pub fn branch_funct3(op: BranchOp) -> u32
    ensures field { result ≡ branch_field op }
    ensures below { result < 8 }
{
    match op {
        BranchOp::Beq => 0b000,
        BranchOp::Bne => 0b001,
        BranchOp::Blt => 0b100,
        BranchOp::Bge => 0b101,
        BranchOp::Bltu => 0b110,
        BranchOp::Bgeu => 0b111,
    }
}

pub fn load_funct3(op: LoadOp) -> u32
    ensures field { result ≡ load_field op }
    ensures below { result < 8 }
{
    match op {
        LoadOp::Lb => 0b000,
        LoadOp::Lh => 0b001,
        LoadOp::Lw => 0b010,
        LoadOp::Ld => 0b011,
        LoadOp::Lbu => 0b100,
        LoadOp::Lhu => 0b101,
        LoadOp::Lwu => 0b110,
    }
}

pub fn store_funct3(op: StoreOp) -> u32
    ensures field { result ≡ store_field op }
    ensures below { result < 8 }
{
    match op {
        StoreOp::Sb => 0b000,
        StoreOp::Sh => 0b001,
        StoreOp::Sw => 0b010,
        StoreOp::Sd => 0b011,
    }
}

pub fn immediate_funct3(op: ImmOp) -> u32
    ensures field { result ≡ imm_funct3 op }
    ensures below { result < 8 }
{
    match op {
        ImmOp::Addi => 0b000,
        ImmOp::Slti => 0b010,
        ImmOp::Sltiu => 0b011,
        ImmOp::Xori => 0b100,
        ImmOp::Ori => 0b110,
        ImmOp::Andi => 0b111,
        ImmOp::Slli => 0b001,
        ImmOp::Srli | ImmOp::Srai => 0b101,
    }
}

pub fn immediate_word_funct3(op: ImmWOp) -> u32
    ensures field { result ≡ imm_w_funct3 op }
    ensures below { result < 8 }
{
    match op {
        ImmWOp::Addiw => 0b000,
        ImmWOp::Slliw => 0b001,
        ImmWOp::Srliw | ImmWOp::Sraiw => 0b101,
    }
}

pub fn register_funct7(op: RegOp) -> u32
    ensures field { result ≡ reg_funct7 op }
    ensures below { result < 128 }
{
    match op {
        RegOp::Add
        | RegOp::Sll
        | RegOp::Slt
        | RegOp::Sltu
        | RegOp::Xor
        | RegOp::Srl
        | RegOp::Or
        | RegOp::And => 0b0000000,
        RegOp::Sub | RegOp::Sra => 0b0100000,
        RegOp::Mul
        | RegOp::Mulh
        | RegOp::Mulhsu
        | RegOp::Mulhu
        | RegOp::Div
        | RegOp::Divu
        | RegOp::Rem
        | RegOp::Remu => 0b0000001,
    }
}

pub fn register_funct3(op: RegOp) -> u32
    ensures field { result ≡ reg_funct3 op }
    ensures below { result < 8 }
{
    match op {
        RegOp::Add | RegOp::Sub | RegOp::Mul => 0b000,
        RegOp::Sll | RegOp::Mulh => 0b001,
        RegOp::Slt | RegOp::Mulhsu => 0b010,
        RegOp::Sltu | RegOp::Mulhu => 0b011,
        RegOp::Xor | RegOp::Div => 0b100,
        RegOp::Srl | RegOp::Sra | RegOp::Divu => 0b101,
        RegOp::Or | RegOp::Rem => 0b110,
        RegOp::And | RegOp::Remu => 0b111,
    }
}

pub fn register_word_funct7(op: RegWOp) -> u32
    ensures field { result ≡ reg_w_funct7 op }
    ensures below { result < 128 }
{
    match op {
        RegWOp::Addw | RegWOp::Sllw | RegWOp::Srlw => 0b0000000,
        RegWOp::Subw | RegWOp::Sraw => 0b0100000,
        RegWOp::Mulw | RegWOp::Divw | RegWOp::Divuw | RegWOp::Remw | RegWOp::Remuw => 0b0000001,
    }
}

pub fn register_word_funct3(op: RegWOp) -> u32
    ensures field { result ≡ reg_w_funct3 op }
    ensures below { result < 8 }
{
    match op {
        RegWOp::Addw | RegWOp::Subw | RegWOp::Mulw => 0b000,
        RegWOp::Sllw => 0b001,
        RegWOp::Srlw | RegWOp::Sraw | RegWOp::Divuw => 0b101,
        RegWOp::Divw => 0b100,
        RegWOp::Remw => 0b110,
        RegWOp::Remuw => 0b111,
    }
}
