//! Loads and stores.

ghost use Rattle.std.specs.Prelude.{◌≡◌, ◌≢◌, ℕ, Bool};
ghost use Rattle.rv_model.specs.Rights.{rights_of};
ghost use Rattle.rv_model.specs.Effect.{load_effect, store_effect};
ghost use Rattle.rv_model.specs.Space.{sees};
ghost use Rattle.rv_model.specs.Arithmetic.{load_width as bytes_of_load, store_width as bytes_of_store};
ghost use Rattle.hart_mem.specs.Access.{width_bytes};
ghost use Rattle.hart_mem.specs.Held.{UsesSpare, lacks_frame, pages_stored, space_of, spare_of};
ghost use Rattle.hart_step.specs.Core.{core_of};
ghost use Rattle.hart_step.specs.Step.{stepped};
ghost use Rattle.hart_step.specs.Flows.{core_at, flow_outcome, OnStop};
ghost use Rattle.hart_step.specs.Executes.{Executes};

use crate::arithmetic::{extended, offset};
use crate::effects::next;
use crate::event::Event;
use crate::flow::Flow;
use crate::hart::Hart;
use hart_mem::{Access, Mem, StoreFault, Width};
use rv_decode::{Instr, LoadOp, StoreOp};
use spec_base::{Reg, Trap, View};

/// Loads a register. The operation is known at each call, so that each has code of its own.
#[inline(always)]
pub(crate) fn load(
    hart: &mut Hart,
    mem: &Mem,
    view: View,
    pc: u64,
    op: LoadOp,
    rd: Reg,
    rs1: Reg,
    imm: i64,
) -> Flow
    requires { view ≡ (core_of hart.old).view }
    ensures { Executes (Instr.Load op rd rs1 imm) pc result (core_of hart.old) mem.now (core_of hart.new) mem.now }
{
    let address = offset(hart.reg(rs1), imm);
    load_from(hart, mem, view, pc, op, rd, address)
}

// As `load`, from an address.
#[inline(always)]
fn load_from(
    hart: &mut Hart,
    mem: &Mem,
    view: View,
    pc: u64,
    op: LoadOp,
    rd: Reg,
    address: u64,
) -> Flow
    requires { view ≡ (core_of hart.old).view }
    ensures outcome { (lacks : ℕ → Bool) → flow_outcome result (core_of hart.new) (space_of mem.now) ≡ stepped lacks (load_effect (rights_of (core_of hart.old).view (space_of mem.now).layout) (sees (core_of hart.old).view (space_of mem.now)) op (core_of hart.old).registers pc rd address) (core_at (core_of hart.old) pc) (space_of mem.now) }
    ensures told { result ≢ Flow.Stop Event.Done }
{
    match mem.load(view, address, load_width(op)) {
        Ok(number) => hart.complete(rd, pc, extended(op, number)),
        Err(Access::Unaligned) => hart.stop(pc, Event::Trap(Trap::Misaligned)),
        Err(Access::Out) => hart.stop(pc, Event::Trap(Trap::LoadOut)),
    }
}

/// Stores a register. The operation is known at each call, so that each has code of its own.
#[inline(always)]
pub(crate) fn store(
    hart: &mut Hart,
    mem: &mut Mem,
    view: View,
    pc: u64,
    op: StoreOp,
    rs1: Reg,
    rs2: Reg,
    imm: i64,
) -> Flow
    requires { view ≡ (core_of hart.old).view }
    ensures { Executes (Instr.Store op rs1 rs2 imm) pc result (core_of hart.old) mem.old (core_of hart.new) mem.new }
{
    let address = offset(hart.reg(rs1), imm);
    let value = hart.reg(rs2);
    store_at(hart, mem, view, pc, op, address, value)
}

// As `store`, at an address.
#[inline(always)]
fn store_at(
    hart: &mut Hart,
    mem: &mut Mem,
    view: View,
    pc: u64,
    op: StoreOp,
    address: u64,
    value: u64,
) -> Flow
    requires { view ≡ (core_of hart.old).view }
    ensures outcome { flow_outcome result (core_of hart.new) (space_of mem.new) ≡ stepped (lacks_frame (core_of hart.old).view mem.old) (store_effect (rights_of (core_of hart.old).view (space_of mem.old).layout) address (bytes_of_store op) value) (core_at (core_of hart.old) pc) (space_of mem.old) }
    ensures told { result ≢ Flow.Stop Event.Done }
    ensures memory { OnStop result (mem.new ≡ mem.old) }
    ensures uses { UsesSpare mem.old mem.new }
    ensures kept { pages_stored (core_of hart.old).view ≡ 0 → spare_of mem.new ≡ spare_of mem.old }
{
    match mem.store(view, address, store_width(op), value) {
        Ok(()) => next(pc),
        Err(StoreFault::Unaligned) => hart.stop(pc, Event::Trap(Trap::Misaligned)),
        Err(StoreFault::Out) => hart.stop(pc, Event::Trap(Trap::StoreOut)),
        Err(StoreFault::NoMemory) => hart.stop(pc, Event::NoMemory),
    }
}

/// How many bytes a load takes.
fn load_width(op: LoadOp) -> Width
    ensures { width_bytes result ≡ bytes_of_load op }
{
    match op {
        LoadOp::Lb | LoadOp::Lbu => Width::One,
        LoadOp::Lh | LoadOp::Lhu => Width::Two,
        LoadOp::Lw | LoadOp::Lwu => Width::Four,
        LoadOp::Ld => Width::Eight,
    }
}

/// How many bytes a store puts.
fn store_width(op: StoreOp) -> Width
    ensures { width_bytes result ≡ bytes_of_store op }
{
    match op {
        StoreOp::Sb => Width::One,
        StoreOp::Sh => Width::Two,
        StoreOp::Sw => Width::Four,
        StoreOp::Sd => Width::Eight,
    }
}
