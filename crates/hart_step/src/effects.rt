//! The instructions that change the hart alone, whatever the memory is.

ghost use Rattle.std.specs.Prelude.{◌≡◌, ◌≢◌, ℕ, Bool};
ghost use Rattle.rv_model.specs.Registers.{with_reg};
ghost use Rattle.rv_model.specs.Effect.{after, even, jumps_to, branch_if, call_effect, gate_effect};
ghost use Rattle.rv_model.specs.Space.{Space};
ghost use Rattle.hart_step.specs.Core.{Core, core_of};
ghost use Rattle.hart_step.specs.Step.{outcome, stepped};
ghost use Rattle.hart_step.specs.Flows.{core_at, flow_outcome};
ghost use Rattle.hart_step.specs.Executes.{ExecutesAlone, IsGate};

use crate::arithmetic::{
    imm_result, imm_w_result, is_taken, offset, reg_result, reg_w_result, word_of,
};
use crate::event::Event;
use crate::flow::Flow;
use crate::hart::Hart;
use rv_decode::{BranchOp, ImmOp, ImmWOp, Instr, RegOp, RegWOp};
use spec_base::{Reg, Trap, View};

/// Goes on with the instruction after the one at pc, modulo 2^64.
#[inline(always)]
pub(crate) fn next(pc: u64) -> Flow
    ensures { result ≡ Flow.Next (after pc) }
{
    Flow::Next(pc.wrapping_add(4))
}

/// A target without its lowest bit, which JALR clears.
#[inline(always)]
fn even(target: u64) -> u64
    ensures { result ≡ even target }
{
    target - target % 2
}

/// ECALL is a call in an original program alone.
#[inline(always)]
fn call(view: View) -> Event
    ensures outcome { (lacks : ℕ → Bool) (c : Core) (s : Space) → outcome result c s ≡ stepped lacks (call_effect view) c s }
    ensures told { result ≢ Event.Done }
{
    match view {
        View::Plain => Event::Ecall,
        View::Program | View::Stub | View::Shadow => Event::Trap(Trap::Illegal),
    }
}

impl Hart {
    /// Completes an instruction at pc that writes a register and nothing else.
    #[inline(always)]
    pub(crate) fn complete(&mut self, rd: Reg, pc: u64, value: u64) -> Flow
        ensures flow { result ≡ Flow.Next (after pc) }
        ensures hart { core_of self.new ≡ record (core_of self.old) { registers = with_reg (core_of self.old).registers rd value } }
    {
        self.set_reg(rd, value);
        next(pc)
    }

    /// Stands at this pc, and tells something.
    #[inline(always)]
    pub(crate) fn stop(&mut self, at: u64, told: Event) -> Flow
        ensures flow { result ≡ Flow.Stop told }
        ensures hart { core_of self.new ≡ core_at (core_of self.old) at }
    {
        self.set_pc(at);
        Flow::Stop(told)
    }

    /// Jumps from pc to a target and links, where the target is a multiple of 4.
    #[inline(always)]
    fn jump(&mut self, rd: Reg, pc: u64, target: u64) -> Flow
        ensures outcome { (lacks : ℕ → Bool) (s : Space) → flow_outcome result (core_of self.new) s ≡ stepped lacks (jumps_to (with_reg (core_of self.old).registers rd (after pc)) target) (core_at (core_of self.old) pc) s }
        ensures told { result ≢ Flow.Stop Event.Done }
    {
        if target % 4 != 0 {
            return self.stop(pc, Event::Trap(Trap::Misaligned));
        }
        self.set_reg(rd, pc.wrapping_add(4));
        Flow::Next(target)
    }

    /// Branches from pc to a target, if the branch is taken.
    #[inline(always)]
    fn branch(&mut self, taken: bool, pc: u64, target: u64) -> Flow
        ensures outcome { (lacks : ℕ → Bool) (s : Space) → flow_outcome result (core_of self.new) s ≡ stepped lacks (branch_if taken (core_of self.old).registers pc target) (core_at (core_of self.old) pc) s }
        ensures told { result ≢ Flow.Stop Event.Done }
    {
        if !taken {
            return next(pc);
        }
        if target % 4 != 0 {
            return self.stop(pc, Event::Trap(Trap::Misaligned));
        }
        Flow::Next(target)
    }

    /// LUI.
    #[inline(always)]
    pub(crate) fn lui(&mut self, pc: u64, rd: Reg, imm: i64) -> Flow
        ensures { ExecutesAlone (Instr.Lui rd imm) pc result (core_of self.old) (core_of self.new) }
    {
        self.complete(rd, pc, word_of(imm))
    }

    /// AUIPC.
    #[inline(always)]
    pub(crate) fn auipc(&mut self, pc: u64, rd: Reg, imm: i64) -> Flow
        ensures { ExecutesAlone (Instr.Auipc rd imm) pc result (core_of self.old) (core_of self.new) }
    {
        self.complete(rd, pc, offset(pc, imm))
    }

    /// JAL.
    #[inline(always)]
    pub(crate) fn jal(&mut self, pc: u64, rd: Reg, imm: i64) -> Flow
        ensures { ExecutesAlone (Instr.Jal rd imm) pc result (core_of self.old) (core_of self.new) }
    {
        self.jump(rd, pc, offset(pc, imm))
    }

    /// JALR.
    #[inline(always)]
    pub(crate) fn jalr(&mut self, pc: u64, rd: Reg, rs1: Reg, imm: i64) -> Flow
        ensures { ExecutesAlone (Instr.Jalr rd rs1 imm) pc result (core_of self.old) (core_of self.new) }
    {
        self.jump(rd, pc, even(offset(self.reg(rs1), imm)))
    }

    /// A branch.
    #[inline(always)]
    pub(crate) fn compare(&mut self, pc: u64, op: BranchOp, rs1: Reg, rs2: Reg, imm: i64) -> Flow
        ensures { ExecutesAlone (Instr.Branch op rs1 rs2 imm) pc result (core_of self.old) (core_of self.new) }
    {
        let taken = is_taken(op, self.reg(rs1), self.reg(rs2));
        self.branch(taken, pc, offset(pc, imm))
    }

    /// An operation on a register and an immediate.
    #[inline(always)]
    pub(crate) fn compute_imm(&mut self, pc: u64, op: ImmOp, rd: Reg, rs1: Reg, imm: i64) -> Flow
        ensures { ExecutesAlone (Instr.OpImm op rd rs1 imm) pc result (core_of self.old) (core_of self.new) }
    {
        self.complete(rd, pc, imm_result(op, self.reg(rs1), imm))
    }

    /// An operation on the low word of a register and an immediate.
    #[inline(always)]
    pub(crate) fn compute_imm_w(&mut self, pc: u64, op: ImmWOp, rd: Reg, rs1: Reg, imm: i64) -> Flow
        ensures { ExecutesAlone (Instr.OpImmW op rd rs1 imm) pc result (core_of self.old) (core_of self.new) }
    {
        self.complete(rd, pc, imm_w_result(op, self.reg(rs1), imm))
    }

    /// An operation on two registers.
    #[inline(always)]
    pub(crate) fn compute(&mut self, pc: u64, op: RegOp, rd: Reg, rs1: Reg, rs2: Reg) -> Flow
        ensures { ExecutesAlone (Instr.Op op rd rs1 rs2) pc result (core_of self.old) (core_of self.new) }
    {
        self.complete(rd, pc, reg_result(op, self.reg(rs1), self.reg(rs2)))
    }

    /// An operation on the low words of two registers.
    #[inline(always)]
    pub(crate) fn compute_w(&mut self, pc: u64, op: RegWOp, rd: Reg, rs1: Reg, rs2: Reg) -> Flow
        ensures { ExecutesAlone (Instr.OpW op rd rs1 rs2) pc result (core_of self.old) (core_of self.new) }
    {
        self.complete(rd, pc, reg_w_result(op, self.reg(rs1), self.reg(rs2)))
    }

    /// FENCE, which does nothing here.
    #[inline(always)]
    pub(crate) fn fence(&self, pc: u64, word: u32) -> Flow
        ensures { ExecutesAlone (Instr.Fence word) pc result (core_of self.now) (core_of self.now) }
    {
        next(pc)
    }

    /// EBREAK.
    #[inline(always)]
    pub(crate) fn ebreak(&mut self, pc: u64) -> Flow
        ensures { ExecutesAlone Instr.Ebreak pc result (core_of self.old) (core_of self.new) }
    {
        self.stop(pc, Event::Trap(Trap::Break))
    }

    /// A word that is no instruction.
    #[inline(always)]
    pub(crate) fn illegal(&mut self, pc: u64) -> Flow
        ensures { ExecutesAlone Instr.Illegal pc result (core_of self.old) (core_of self.new) }
    {
        self.stop(pc, Event::Trap(Trap::Illegal))
    }

    /// ECALL.
    #[inline(always)]
    pub(crate) fn ecall(&mut self, view: View, pc: u64) -> Flow
        requires { view ≡ (core_of self.old).view }
        ensures { ExecutesAlone Instr.Ecall pc result (core_of self.old) (core_of self.new) }
    {
        self.stop(pc, call(view))
    }

    /// Passes a gate instruction at pc. It is a part of its caller: a call would keep room in memory for the
    /// instruction and for what it comes to, which each step would clear.
    #[inline(always)]
    fn pass_at(&mut self, pc: u64, gate: Instr) -> Flow
        ensures outcome { (lacks : ℕ → Bool) (s : Space) → flow_outcome result (core_of self.new) s ≡ stepped lacks (gate_effect (core_of self.old).view gate) (core_at (core_of self.old) pc) s }
        ensures told { result ≢ Flow.Stop Event.Done }
    {
        self.set_pc(pc);
        match self.pass(gate) {
            Event::Done => Flow::Next(self.pc()),
            told => Flow::Stop(told),
        }
    }

    /// A gate instruction.
    #[inline(always)]
    pub(crate) fn meet(&mut self, pc: u64, gate: Instr) -> Flow
        requires { IsGate gate }
        ensures { ExecutesAlone gate pc result (core_of self.old) (core_of self.new) }
    {
        self.pass_at(pc, gate)
    }
}
