//! Words from the listings of llvm-mc (Debian LLVM 14.0.6, `llvm-mc -triple=riscv64 -mattr=+m`).

ghost use Rattle.std.specs.Prelude.{◌≡◌};
ghost use Rattle.rv_encode.specs.Code.{IsJump};

use crate::{CloseFault, CodeBuf, encode};
use rv_decode::{BranchOp, ImmOp, ImmWOp, Instr, LoadOp, RegOp, StoreOp};
use spec_base::{NoMemory, Park, Reg};
use std::alloc::Global;
use std::test::Fail;

fn x(number: u32) -> Reg {
    Reg::from_low_bits(number)
}

/// A branch whose distance is to come.
fn beq(rs1: Reg, rs2: Reg) -> Instr
    ensures { IsJump result }
{
    Instr::Branch {
        op: BranchOp::Beq,
        rs1,
        rs2,
        imm: 0,
    }
}

/// One word of each format, and the gate instructions with fields.
#[test]
fn encodes_each_format(rt: HostRuntime) {
    let (rd, rs1, rs2) = (x(31), x(5), x(6));
    let imm = 0x4110_0000;
    assert_eq!(rt; encode(&Instr::Lui { rd, imm }), 0x4110_0FB7);
    assert_eq!(rt; encode(&Instr::Jal { rd: x(1), imm: -72 }), 0xFB9F_F0EF);
    let (op, imm) = (BranchOp::Bne, -4);
    assert_eq!(rt; encode(&Instr::Branch { op, rs1, rs2, imm }), 0xFE62_9EE3);
    let (op, rs1, imm) = (LoadOp::Ld, x(0), -8);
    assert_eq!(rt; encode(&Instr::Load { op, rd, rs1, imm }), 0xFF80_3F83);
    let (op, rs2) = (StoreOp::Sd, x(31));
    assert_eq!(rt; encode(&Instr::Store { op, rs1, rs2, imm }), 0xFFF0_3C23);
    let (op, rd, rs1, imm) = (ImmOp::Srai, x(15), x(16), 33);
    assert_eq!(rt; encode(&Instr::OpImm { op, rd, rs1, imm }), 0x4218_5793);
    let (op, rd, rs1, imm) = (ImmWOp::Sraiw, x(23), x(24), 1);
    assert_eq!(rt; encode(&Instr::OpImmW { op, rd, rs1, imm }), 0x401C_5B9B);
    let (op, rd, rs1, rs2) = (RegOp::Mulhsu, x(7), x(8), x(9));
    assert_eq!(rt; encode(&Instr::Op { op, rd, rs1, rs2 }), 0x0294_23B3);
    assert_eq!(rt; encode(&Instr::Hsite { rd: x(31) }), 0x0000_2F8B);
    assert_eq!(rt; encode(&Instr::Hpark(Park::LogFull)), 0x0000_720B);
}

/// A loop that leaves forward and comes back:
/// ```text
///       addi x10, x0, 10
/// loop: beq x10, x0, done
///       addi x10, x10, -1
///       jal x0, loop
/// done: bne x10, x11, loop
///       jal x1, done
/// ```
#[test]
fn closes_a_loop(rt: HostRuntime) -> Result<(), Fail> {
    let mut code = CodeBuf::new(rt.alloc());
    let start = code.label()?;
    let done = code.label()?;
    code.push(0x00A0_0513)?;
    code.bind(start);
    code.push_to(beq(x(10), x(0)), done)?;
    code.push(0xFFF5_0513)?;
    code.push_to(Instr::Jal { rd: x(0), imm: 0 }, start)?;
    code.bind(done);
    let again = Instr::Branch {
        op: BranchOp::Bne,
        rs1: x(10),
        rs2: x(11),
        imm: 0,
    };
    code.push_to(again, start)?;
    code.push_to(Instr::Jal { rd: x(1), imm: 0 }, done)?;
    let expected = [
        0x00A0_0513,
        0x0005_0663,
        0xFFF5_0513,
        0xFF9F_F06F,
        0xFEB5_1AE3,
        0xFFDF_F0EF,
    ];
    let words = code.close().map_err(|_| "the code closes")?;
    assert_eq!(rt; words.as_slice(), expected.as_slice());
    Ok(())
}

#[test]
fn tells_a_label_without_a_place(rt: HostRuntime) -> Result<(), Fail> {
    let mut code = CodeBuf::new(rt.alloc());
    let label = code.label()?;
    code.push_to(beq(x(0), x(0)), label)?;
    let fault = code.close().err();
    assert_eq!(rt; fault, Some(CloseFault::Unbound(label)));
    Ok(())
}

/// Closes a branch to a label that stands so many words after it.
fn branch_ahead(alloc: Global, count: usize) -> Result<Result<Vec<u32>, CloseFault>, NoMemory> {
    let mut code = CodeBuf::new(alloc);
    let label = code.label()?;
    code.push_to(beq(x(0), x(0)), label)?;
    push_words(&mut code, count)?;
    code.bind(label);
    Ok(code.close())
}

/// Closes a branch to a label that stands so many words before it.
fn branch_back(alloc: Global, count: usize) -> Result<Result<Vec<u32>, CloseFault>, NoMemory> {
    let mut code = CodeBuf::new(alloc);
    let label = code.label()?;
    code.bind(label);
    push_words(&mut code, count)?;
    code.push_to(beq(x(0), x(0)), label)?;
    Ok(code.close())
}

/// A branch reaches 4094 bytes ahead and 4096 back.
#[test]
fn tells_a_label_that_is_far(rt: HostRuntime) -> Result<(), Fail> {
    let label = CodeBuf::new(rt.alloc()).label()?;
    let ahead = branch_ahead(rt.alloc(), 1022)?.map_err(|_| "the code closes")?;
    assert_eq!(rt; ahead.first(), Some(&0x7E00_0EE3));
    let fault = branch_ahead(rt.alloc(), 1023)?.err();
    assert_eq!(rt; fault, Some(CloseFault::Far(label)));
    let back = branch_back(rt.alloc(), 1024)?.map_err(|_| "the code closes")?;
    assert_eq!(rt; back.last(), Some(&0x8000_0063));
    let fault = branch_back(rt.alloc(), 1025)?.err();
    assert_eq!(rt; fault, Some(CloseFault::Far(label)));
    Ok(())
}

/// Appends so many words, which leaves the labels as they are.
fn push_words(code: &mut CodeBuf, count: usize) -> Result<(), NoMemory>
    ensures { code.new.places ≡ code.old.places }
{
    for _ in 0..count {
        code.push(0x0000_0013)?;
    }
    Ok(())
}
