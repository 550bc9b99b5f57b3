//! The marks along a run.

ghost use Rattle.std.specs.Prelude.{◌≡◌, ◌%◌, ◌==◌, ◌||◌, IsTrue, Bool, false, if◌then◌else◌, Some, IfOk, OnOk, OnErr};
ghost use Rattle.spec_base.specs.Word.{plus_int};
ghost use Rattle.spec_base.specs.declared.layout.Layout.{Layout};
ghost use Rattle.rv_model.specs.Memory.{any_from};
ghost use Rattle.rv_model.specs.Registers.{reg};
ghost use Rattle.rv_model.specs.Arithmetic.{load_width, store_width};
ghost use Rattle.program_model.specs.Calls.{kind_of};
ghost use Rattle.program_model.specs.PlainRun.{State};
ghost use Rattle.run_model.specs.Restarts.{instr_action};
ghost use Rattle.run_model.specs.Marks.{no_marks, mark_register, mark_bytes, marks_after, is_use};
ghost use Rattle.rv_model.specs.Rights.{is_data};
ghost use Rattle.hart_step.specs.Core.{core_of};
ghost use Rattle.use_marks.specs.Ranges.{Fits};
ghost use Rattle.use_marks.specs.Marked.{marks_of};
ghost use Rattle.use_marks.specs.Passing.{Sees, read_mark, touches_data, ReadFits, ChangeFits, change, changed, past_call, uses, name_used, marked_name};

use crate::access::{address_of, load_bytes, name_length, store_bytes, value};
use crate::passage::{MarkChange, Passage, unused};
use crate::ranges::Ranges;
use crate::read_mark::ReadMark;
use hart_step::Hart;
use rv_decode::Instr;
use rv_model::Bytes;
use spec_base::{NoMemory, Reg};
use std::alloc::Global;

/// Which registers and which bytes are marked. A contract sees them by `marks_of`.
#[derive(Drop)]
pub struct Marks {
    registers: [bool; 32],
    bytes: Ranges,
}

impl Marks {
    /// No marks.
    pub fn new(alloc: Global) -> Marks
        ensures { marks_of result ≡ no_marks }
    {
        Marks {
            registers: [false; 32],
            bytes: Ranges::new(alloc),
        }
    }

    /// No marks any more.
    pub fn restart(&mut self)
        ensures { marks_of self.new ≡ no_marks }
    {
        self.registers = [false; 32];
        self.bytes.clear();
    }

    /// Whether a register is marked.
    pub fn marked_reg(&self, reg: Reg) -> bool
        ensures { result ≡ (marks_of self.now).registers reg }
    {
        self.registers[reg.number() as usize]
    }

    /// Whether a byte is marked.
    pub fn marked(&self, address: u64) -> bool
        ensures { result ≡ (marks_of self.now).bytes address }
    {
        self.bytes.contains(address)
    }

    /// What an instruction does when it completes from here. What is told of a read counts at a call
    /// alone, and `mem` where a call looks at a name. An instruction that completes touches data alone,
    /// so the bytes of its change end below 2^64.
    pub fn look<B: Bytes>(&self, instr: &Instr, here: &Hart, mem: &B, read: ReadMark) -> Passage
        ensures used { (l : Layout) (s : State) → Sees (B.byte_at mem.now) (core_of here.now).registers instr.now l s → result.used ≡ is_use l s (Some instr.now) (marks_of self.now) }
        ensures change { (l : Layout) (filled : Bool) (s : State) → Sees (B.byte_at mem.now) (core_of here.now).registers instr.now l s → read ≡ read_mark filled (instr_action l s (Some instr.now)) → changed result.change (marks_of self.now) ≡ marks_after l filled s (Some instr.now) (marks_of self.now) }
        ensures fits { (l : Layout) (filled : Bool) (s : State) → IsTrue (touches_data (is_data l) (core_of here.now).registers instr.now) → read ≡ read_mark filled (instr_action l s (Some instr.now)) → ChangeFits result.change }
    {
        self.passage(*instr, here, mem, read)
    }

    /// Takes the marks past an instruction that completed, by its change. After an Err they are as before.
    pub fn pass(&mut self, change: MarkChange) -> Result<(), NoMemory>
        ensures ok { OnOk result (ChangeFits change → marks_of self.new ≡ changed change (marks_of self.old)) }
        ensures err { OnErr result (marks_of self.new ≡ marks_of self.old) }
    {
        match change {
            MarkChange::None => Ok(()),
            MarkChange::Register { rd, marked } => {
                self.set_reg(rd, marked);
                Ok(())
            }
            MarkChange::Bytes {
                address,
                count,
                marked,
            } => self.set_bytes(address, count, marked),
            MarkChange::Call(read) => self.go_past_call(read),
        }
    }

    // Whether an instruction uses a mark, and what it changes of the marks.
    #[inline(always)]
    fn passage<B: Bytes>(&self, instr: Instr, here: &Hart, mem: &B, read: ReadMark) -> Passage
        ensures used { result.used ≡ uses (B.byte_at mem.now) (core_of here.now).registers instr (marks_of self.now) }
        ensures change { result.change ≡ change (core_of here.now).registers instr read (marks_of self.now) }
    {
        match instr {
            Instr::Load { op, rd, rs1, imm } => Passage {
                used: self.marked_reg(rs1),
                change: MarkChange::Register {
                    rd,
                    marked: self
                        .bytes
                        .contains_any(address_of(here, rs1, imm), load_bytes(op)),
                },
            },
            Instr::Store { op, rs1, rs2, imm } => Passage {
                used: self.marked_reg(rs1),
                change: MarkChange::Bytes {
                    address: address_of(here, rs1, imm),
                    count: store_bytes(op),
                    marked: self.marked_reg(rs2),
                },
            },
            Instr::OpImm { rd, rs1, .. } | Instr::OpImmW { rd, rs1, .. } => {
                unused(rd, self.marked_reg(rs1))
            }
            Instr::Op { rd, rs1, rs2, .. } | Instr::OpW { rd, rs1, rs2, .. } => {
                unused(rd, self.marked_reg(rs1) || self.marked_reg(rs2))
            }
            Instr::Lui { rd, .. } | Instr::Auipc { rd, .. } | Instr::Jal { rd, .. } => {
                unused(rd, false)
            }
            Instr::Jalr { rd, rs1, .. } => Passage {
                used: self.marked_reg(rs1),
                change: MarkChange::Register { rd, marked: false },
            },
            Instr::Branch { rs1, rs2, .. } => Passage {
                used: self.marked_reg(rs1) || self.marked_reg(rs2),
                change: MarkChange::None,
            },
            Instr::Ecall => Passage {
                used: self.is_call_used(here, mem),
                change: MarkChange::Call(read),
            },
            _ => Passage {
                used: false,
                change: MarkChange::None,
            },
        }
    }

    // Whether a call uses a mark.
    fn is_call_used<B: Bytes>(&self, here: &Hart, mem: &B) -> bool
        ensures { result ≡ uses (B.byte_at mem.now) (core_of here.now).registers Instr.Ecall (marks_of self.now) }
    {
        if self.is_argument_used() {
            return true;
        }
        self.is_name_used(here, mem)
    }

    // Whether a call's number or one of its arguments is marked.
    #[tactic(auto, unfolding(crate::specs::Marked::marks_of))]
    fn is_argument_used(&self) -> bool
        ensures { result ≡ ((marks_of self.now).registers 10 || ((marks_of self.now).registers 11 || ((marks_of self.now).registers 12 || (marks_of self.now).registers 17))) }
    {
        if self.registers[10] {
            return true;
        }
        if self.registers[11] {
            return true;
        }
        if self.registers[12] {
            return true;
        }
        self.registers[17]
    }

    // Whether a call looks at a name with a marked byte.
    fn is_name_used<B: Bytes>(&self, here: &Hart, mem: &B) -> bool
        ensures { result ≡ name_used (kind_of (reg (core_of here.now).registers 17)) (B.byte_at mem.now) (core_of here.now).registers (marks_of self.now).bytes }
    {
        match value(here, 17) {
            1024 => self.is_read_name_used(mem, value(here, 10), value(here, 11)),
            56 => self.is_read_name_used(mem, value(here, 11), value(here, 12)),
            _ => false,
        }
    }

    // Whether the name at an address has a marked byte, if the flags are those of reading.
    fn is_read_name_used<B: Bytes>(&self, mem: &B, address: u64, flags: u64) -> bool
        ensures { result ≡ (if flags % 4 == 0 then marked_name (B.byte_at mem.now) (marks_of self.now).bytes address else false) }
    {
        flags % 4 == 0 && self.bytes.contains_any(address, name_length(mem, address))
    }

    // Takes the marks past a call.
    fn go_past_call(&mut self, read: ReadMark) -> Result<(), NoMemory>
        ensures ok { OnOk result (ReadFits read → marks_of self.new ≡ past_call read (marks_of self.old)) }
        ensures err { OnErr result (marks_of self.new ≡ marks_of self.old) }
    {
        match read {
            ReadMark::None => {
                self.clear_answer();
                Ok(())
            }
            ReadMark::Left { address, count } => {
                self.set_bytes(address, count, true)?;
                self.clear_answer();
                Ok(())
            }
            ReadMark::Filled { address, count } => {
                self.set_bytes(address, count, false)?;
                self.clear_answer();
                Ok(())
            }
        }
    }

    // A call clears the mark of x10.
    fn clear_answer(&mut self)
        ensures { marks_of self.new ≡ mark_register (marks_of self.old) 10 false }
    {
        self.registers[10] = false;
    }

    // Marks or clears a register; x0 is never marked.
    fn set_reg(&mut self, rd: Reg, marked: bool)
        ensures { marks_of self.new ≡ mark_register (marks_of self.old) rd marked }
    {
        let number = rd.number();
        if number != 0 {
            self.registers[number as usize] = marked;
        }
    }

    // Marks or clears so many bytes from an address on.
    fn set_bytes(&mut self, address: u64, count: u64, marked: bool) -> Result<(), NoMemory>
        ensures ok { OnOk result (Fits address count → marks_of self.new ≡ mark_bytes (marks_of self.old) address count marked) }
        ensures err { OnErr result (marks_of self.new ≡ marks_of self.old) }
    {
        self.bytes.set(address, count, marked)?;
        Ok(())
    }
}
