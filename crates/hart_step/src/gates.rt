//! The gate instructions, each of which is legal in its views alone.

ghost use Rattle.std.specs.Prelude.{◌≡◌, ℕ, Bool};
ghost use Rattle.rv_model.specs.Registers.{with_reg};
ghost use Rattle.rv_model.specs.Effect.{after, gate_effect};
ghost use Rattle.rv_model.specs.Space.{Space};
ghost use Rattle.hart_step.specs.Core.{core_of};
ghost use Rattle.hart_step.specs.Step.{outcome, stepped};

use crate::event::Event;
use crate::hart::Hart;
use rv_decode::Instr;
use spec_base::{Reg, Trap, View};

impl Hart {
    /// Meets a gate instruction, each of which is legal in its views alone.
    #[inline(always)]
    pub(crate) fn pass(&mut self, gate: Instr) -> Event
        ensures { (lacks : ℕ → Bool) (s : Space) → outcome result (core_of self.new) s ≡ stepped lacks (gate_effect (core_of self.old).view gate) (core_of self.old) s }
    {
        match self.view() {
            View::Plain => Event::Trap(Trap::Illegal),
            View::Program => self.pass_in_program(gate),
            View::Stub => self.pass_in_stub(gate),
            View::Shadow => self.pass_in_shadow(gate),
        }
    }

    #[inline(always)]
    fn pass_in_program(&mut self, gate: Instr) -> Event
        ensures { (lacks : ℕ → Bool) (s : Space) → outcome result (core_of self.new) s ≡ stepped lacks (gate_effect View.Program gate) (core_of self.old) s }
    {
        match gate {
            Instr::Hgate => {
                self.enter_stub();
                Event::Gate
            }
            _ => Event::Trap(Trap::Illegal),
        }
    }

    #[inline(always)]
    fn pass_in_stub(&mut self, gate: Instr) -> Event
        ensures { (lacks : ℕ → Bool) (s : Space) → outcome result (core_of self.new) s ≡ stepped lacks (gate_effect View.Stub gate) (core_of self.old) s }
    {
        match gate {
            Instr::Hleave => {
                self.leave_stub();
                Event::Leave
            }
            Instr::Hsite { rd } => self.done(rd, self.site()),
            Instr::Hkey { rd } => Event::Key(rd),
            Instr::Hstop => {
                self.go_on();
                Event::Stop
            }
            Instr::Hrestart => {
                self.go_on();
                Event::Restart
            }
            Instr::Hcall(false) => Event::Call(false),
            _ => Event::Trap(Trap::Illegal),
        }
    }

    #[inline(always)]
    fn pass_in_shadow(&mut self, gate: Instr) -> Event
        ensures { (lacks : ℕ → Bool) (s : Space) → outcome result (core_of self.new) s ≡ stepped lacks (gate_effect View.Shadow gate) (core_of self.old) s }
    {
        match gate {
            Instr::Hkey { rd } => Event::Key(rd),
            Instr::Hcall(unhinted) => Event::Call(unhinted),
            Instr::Hpark(cause) => {
                self.go_on();
                Event::Park(cause)
            }
            _ => Event::Trap(Trap::Illegal),
        }
    }
    /// Completes a gate instruction that writes a register.
    fn done(&mut self, rd: Reg, value: u64) -> Event
        ensures event { result ≡ Event.Done }
        ensures hart { core_of self.new ≡ record (core_of self.old) { registers = with_reg (core_of self.old).registers rd value; pc = after (core_of self.old).pc } }
    {
        self.answer(rd, value);
        Event::Done
    }
}
