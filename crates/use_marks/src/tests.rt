//! Marks and uses along instructions, written out by hand.

ghost use Rattle.std.specs.Prelude.{◌-◌, None, slice_get, nat_lt, if◌then◌else◌};

use crate::{Marks, ReadMark};
use hart_step::Hart;
use rv_decode::{BranchOp, ImmOp, Instr, LoadOp, RegOp, StoreOp};
use rv_model::Bytes;
use spec_base::{NoMemory, Reg, View};
use std::alloc::Global;
use std::process::Abort;
use std::test::Fail;

const START: u64 = 0x1000;

/// Bytes from START on, all of them data.
#[derive(Drop)]
struct Stretch {
    bytes: Vec<u8>,
}

impl Bytes for Stretch {
    ghost byte_at = { λ s a. if nat_lt a 4096 then None else slice_get s.bytes.items (a - 4096) };

    fn byte(&self, address: u64) -> Option<u8> {
        if address < START {
            None
        } else {
            self.bytes.get((address - START) as usize).copied()
        }
    }
}

/// An instruction, with what is told of its read.
type Step = (Instr, ReadMark);

const NO_READ: ReadMark = ReadMark::None;

fn x(number: u32) -> Reg {
    Reg::from_low_bits(number)
}

fn lbu(rd: u32, rs1: u32, imm: i64) -> Step {
    let instr = Instr::Load {
        op: LoadOp::Lbu,
        rd: x(rd),
        rs1: x(rs1),
        imm,
    };
    (instr, NO_READ)
}

fn sd(rs2: u32, imm: i64, rs1: u32) -> Step {
    let instr = Instr::Store {
        op: StoreOp::Sd,
        rs1: x(rs1),
        rs2: x(rs2),
        imm,
    };
    (instr, NO_READ)
}

fn addi(rd: u32, rs1: u32, imm: i64) -> Step {
    let instr = Instr::OpImm {
        op: ImmOp::Addi,
        rd: x(rd),
        rs1: x(rs1),
        imm,
    };
    (instr, NO_READ)
}

fn add(rd: u32, rs1: u32, rs2: u32) -> Step {
    let instr = Instr::Op {
        op: RegOp::Add,
        rd: x(rd),
        rs1: x(rs1),
        rs2: x(rs2),
    };
    (instr, NO_READ)
}

fn beq(rs1: u32, rs2: u32) -> Step {
    let instr = Instr::Branch {
        op: BranchOp::Beq,
        rs1: x(rs1),
        rs2: x(rs2),
        imm: 8,
    };
    (instr, NO_READ)
}

fn jalr(rd: u32, rs1: u32) -> Step {
    let instr = Instr::Jalr {
        rd: x(rd),
        rs1: x(rs1),
        imm: 0,
    };
    (instr, NO_READ)
}

fn lui(rd: u32) -> Step {
    (Instr::Lui { rd: x(rd), imm: 0 }, NO_READ)
}

fn auipc(rd: u32) -> Step {
    (Instr::Auipc { rd: x(rd), imm: 0 }, NO_READ)
}

fn jal(rd: u32) -> Step {
    (Instr::Jal { rd: x(rd), imm: 8 }, NO_READ)
}

fn ecall() -> Step {
    (Instr::Ecall, NO_READ)
}

// A read of so many bytes from an address on that the shadow skipped.
fn left(address: u64, count: u64) -> Step {
    (Instr::Ecall, ReadMark::Left { address, count })
}

// The same, filled.
fn filled(address: u64, count: u64) -> Step {
    (Instr::Ecall, ReadMark::Filled { address, count })
}

// A hart with x8 at START, and this call in x17, x10, x11 and x12.
fn hart(call: [u64; 4]) -> Hart {
    let mut hart = Hart::new(0, View::Plain);
    hart.set_reg(x(8), START);
    hart.set_reg(x(17), call[0]);
    hart.set_reg(x(10), call[1]);
    hart.set_reg(x(11), call[2]);
    hart.set_reg(x(12), call[3]);
    hart
}

// The bytes `data`, a zero byte, and more of them.
fn memory(alloc: Global) -> Result<Stretch, NoMemory> {
    let mut bytes = vec![in alloc; 0u8; 64]?;
    bytes[..4].copy_from_slice(b"data");
    Ok(Stretch { bytes })
}

// Passes a step from a hart, and tells whether it is a use.
fn pass(marks: &mut Marks, step: Step, hart: &Hart, mem: &Stretch) -> Result<bool, NoMemory> {
    let passage = marks.look(&step.0, hart, mem, step.1);
    marks.pass(passage.change)?;
    Ok(passage.used)
}

// The number of the first step that is a use, from 1; 0 if none is.
fn first_use(alloc: Global, hart: &Hart, mem: &Stretch, steps: &[Step]) -> Result<usize, NoMemory> {
    let mut marks = Marks::new(alloc);
    for (i, step) in steps.iter().enumerate() {
        if pass(&mut marks, *step, hart, mem)? {
            return Ok(i + 1);
        }
    }
    Ok(0)
}

// A read marks 8 bytes at x8, x5 is loaded from them, and this step follows.
fn after_load(alloc: Global, hart: &Hart, mem: &Stretch, step: Step) -> Result<usize, NoMemory> {
    first_use(alloc, hart, mem, &[left(START, 8), lbu(5, 8, 0), step])
}

#[test]
fn tells_where_a_loaded_byte_is_used(rt: HostRuntime) -> Result<(), Fail> {
    let mem = memory(rt.alloc())?;
    let hart = hart([93, 0, 0, 0]);
    let loads = [left(START, 8), lbu(5, 8, 0), addi(17, 0, 93), ecall()];
    assert_eq!(rt; first_use(rt.alloc(), &hart, &mem, &loads)?, 0);
    let exits = [left(START, 8), lbu(10, 8, 0), addi(17, 0, 93), ecall()];
    assert_eq!(rt; first_use(rt.alloc(), &hart, &mem, &exits)?, 4);
    Ok(())
}

#[test]
fn tells_each_use(rt: HostRuntime) -> Result<(), Fail> {
    let mem = memory(rt.alloc())?;
    let hart = hart([0, 0, 0, 0]);
    let low = START as i64;
    let uses = [
        lbu(6, 5, low),
        sd(6, low, 5),
        jalr(1, 5),
        beq(5, 6),
        beq(6, 5),
    ];
    for step in uses {
        assert_eq!(rt; after_load(rt.alloc(), &hart, &mem, step)?, 3);
    }
    let others = [
        addi(6, 5, 0),
        add(6, 5, 5),
        sd(5, 8, 8),
        lui(5),
        jal(5),
        ecall(),
    ];
    for step in others {
        assert_eq!(rt; after_load(rt.alloc(), &hart, &mem, step)?, 0);
    }
    for number in [10, 11, 12, 17] {
        let steps = [left(START, 8), lbu(number, 8, 0), ecall()];
        assert_eq!(rt; first_use(rt.alloc(), &hart, &mem, &steps)?, 3);
    }
    Ok(())
}

#[test]
fn tells_the_use_of_a_name(rt: HostRuntime) -> Result<(), Fail> {
    let mem = memory(rt.alloc())?;
    let rows = [
        ([56, 0, START, 0], 4, 2),
        ([56, 0, START, 0], 5, 0),
        ([56, 0, START, 1], 4, 0),
        ([1024, START, 0, 0], 3, 2),
        ([1024, 0, START, 0], 3, 0),
    ];
    for (call, byte, number) in rows {
        let steps = [left(START + byte, 1), ecall()];
        assert_eq!(rt; first_use(rt.alloc(), &hart(call), &mem, &steps)?, number);
    }
    Ok(())
}

#[test]
fn clears_marks(rt: HostRuntime) -> Result<(), Fail> {
    let mem = memory(rt.alloc())?;
    let hart = hart([0, 0, 0, 0]);
    let cleared = [sd(6, 0, 8), filled(START, 8), filled(START, 1)];
    for step in cleared {
        let steps = [
            left(START, 16),
            step,
            lbu(5, 8, 0),
            beq(5, 5),
            lbu(5, 8, 8),
            beq(5, 5),
        ];
        assert_eq!(rt; first_use(rt.alloc(), &hart, &mem, &steps)?, 6);
    }
    for step in [lui(5), auipc(5), jal(5), addi(5, 6, 0), lbu(5, 8, 8)] {
        let steps = [left(START, 8), lbu(5, 8, 0), step, beq(5, 5)];
        assert_eq!(rt; first_use(rt.alloc(), &hart, &mem, &steps)?, 0);
    }
    let none = [left(START, 8), lbu(0, 8, 0), beq(0, 0)];
    assert_eq!(rt; first_use(rt.alloc(), &hart, &mem, &none)?, 0);
    let passed_on = [
        left(START, 8),
        lbu(5, 8, 7),
        sd(5, 8, 8),
        lbu(6, 8, 15),
        add(7, 0, 6),
        beq(7, 0),
    ];
    assert_eq!(rt; first_use(rt.alloc(), &hart, &mem, &passed_on)?, 6);
    Ok(())
}

#[test]
fn forgets_at_a_restart(rt: HostRuntime) -> Result<(), Fail> {
    let mem = memory(rt.alloc())?;
    let hart = hart([0, 0, 0, 0]);
    let mut marks = Marks::new(rt.alloc());
    for step in [left(START, 8), lbu(10, 8, 0)] {
        assert!(rt; !pass(&mut marks, step, &hart, &mem)?);
    }
    assert!(rt; marks.marked_reg(x(10)) && marks.marked(START + 7) && !marks.marked(START + 8));
    assert!(rt; pass(&mut marks, ecall(), &hart, &mem)?);
    assert!(rt; !marks.marked_reg(x(10)) && marks.marked(START));
    marks.restart();
    assert!(rt; !marks.marked(START));
    marks.restart();
    assert!(rt; !marks.marked(START + 7));
    Ok(())
}
