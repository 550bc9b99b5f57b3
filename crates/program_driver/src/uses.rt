//! The first uses along a trace.

ghost use Rattle.std.specs.Prelude.{◌≡◌, ℕ, suc, ◌&&◌, ◌++◌, ◌∷◌, [], false, true, Some, is_some, IfSome, IfOk, OnOk, OnErr};
ghost use Rattle.std.specs.BTreeSet.{contains};
ghost use Rattle.std.specs.Ordering.{nat_cmp};
ghost use Rattle.spec_base.specs.Listed.{is_listed};
ghost use Rattle.spec_base.specs.declared.note.Move.{Move};
ghost use Rattle.run_model.specs.Run.{World, Run, Answer};
ghost use Rattle.run_model.specs.Moves.{Moves, step, run};
ghost use Rattle.run_model.specs.Restarts.{instr_action};
ghost use Rattle.run_laws.specs.OwnLaws.{Accepted};
ghost use Rattle.use_marks.specs.Along.{AreMarksOf, numbers_of, numbers_then, completes_first_use, has_restarted, filled_by, call_at, own_instr, tells_fill};
ghost use Rattle.use_marks.specs.Marked.{marks_of};
ghost use Rattle.run_model.specs.Marks.{no_marks};
ghost use Rattle.use_marks.specs.Passing.{read_mark};
ghost use Rattle.runner.specs.Shows.{Shows};
ghost use Rattle.program_driver.specs.Uses.{HasUses, KeepsUses, IsAhead, Stands, StandsIf, is_fill};

use file_calls::PlannedCall;
use runner::Runner;
use runner_parts::{both, plan_of_own};
use rv_decode::Instr;
use spec_base::{Move, NoMemory, Note, View};
use std::alloc::Global;
use std::collections::BTreeSet;
use use_marks::{Marks, Passage, ReadMark};

/// What is kept along a trace to tell the first use of each run from a restart: the marks, whether no
/// instruction was a use, and of each read that the shadow filled how many instructions come before it.
#[derive(Drop)]
pub(crate) struct UseTrace {
    on: bool,
    marks: Marks,
    filled: BTreeSet<u64>,
    unused: bool,
}

/// The counts before a move, and what the own hart's next instruction does to the marks, if the move may
/// complete one of the run from a restart.
#[derive(Clone, Copy, Debug)]
pub(crate) struct Ahead {
    own: u64,
    shadow: u64,
    restarts: u64,
    next: Option<Passage>,
}

/// The call that a word of the stub completes: HCALL does, and no other word.
fn call_at(word: Option<Instr>) -> Option<Instr>
    ensures { result ≡ call_at word }
{
    match word {
        Some(Instr::Hcall { .. }) => Some(Instr::Ecall),
        _ => None,
    }
}

/// The instruction that the own hart would complete: in the program that at its pc, in the stub the call
/// of the word at its pc.
fn own_instr(runner: &Runner) -> Option<Instr>
    ensures { (w : World) (r : Run) → Accepted w → Shows runner.now w r → result ≡ own_instr w r }
{
    let own = runner.own();
    match own.view() {
        View::Program => runner.mem().instr_at(View::Program, own.pc()),
        View::Stub => call_at(runner.mem().instr_at(View::Stub, own.pc())),
        // The own hart has no other view.
        View::Plain | View::Shadow => None,
    }
}

/// Whether a note tells a fill.
fn is_fill(note: &Note) -> bool
    ensures { result ≡ is_fill note.now }
{
    match note {
        Note::Fill(_) => true,
        _ => false,
    }
}

/// Whether one of these notes tells a fill.
fn tells_fill(notes: &[Note]) -> bool
    ensures { result ≡ tells_fill notes.now }
{
    for note in notes {
        if is_fill(note) {
            return true;
        }
    }
    false
}

impl UseTrace {
    /// What is kept at the start, where uses are told or not.
    pub(crate) fn new(alloc: Global, on: bool) -> UseTrace
        ensures on { result.on ≡ on }
        ensures keeps { (w : World) → KeepsUses w [] result }
    {
        UseTrace {
            on,
            marks: Marks::new(alloc),
            filled: BTreeSet::new(alloc),
            unused: true,
        }
    }

    // What the call in the own hart's registers reads.
    fn call_read(&self, runner: &Runner) -> ReadMark
        ensures { (w : World) (r : Run) → Shows runner.now w r → ((n : ℕ) → contains nat_cmp self.now.filled n ≡ is_listed r.since.filled (suc n))
            → result ≡ read_mark (is_listed r.since.filled (suc r.since.own)) (instr_action w.image.layout r.own (Some Instr.Ecall)) }
    {
        let plan = plan_of_own(runner.own(), runner.own_files(), runner.mem());
        let PlannedCall::Read(spot, address) = plan else {
            return ReadMark::None;
        };
        let count = spot.count;
        if self.filled.contains(&runner.own_since()) {
            ReadMark::Filled { address, count }
        } else {
            ReadMark::Left { address, count }
        }
    }

    // What an instruction that the own hart would complete reads.
    fn instr_read(&self, runner: &Runner, instr: &Instr) -> ReadMark
        ensures { (w : World) (r : Run) → Shows runner.now w r → ((n : ℕ) → contains nat_cmp self.now.filled n ≡ is_listed r.since.filled (suc n))
            → result ≡ read_mark (is_listed r.since.filled (suc r.since.own)) (instr_action w.image.layout r.own (Some instr.now)) }
    {
        match instr {
            Instr::Ecall => self.call_read(runner),
            _ => ReadMark::None,
        }
    }

    // What an instruction of the own hart does to the marks.
    fn passage(&self, runner: &Runner, instr: &Instr) -> Passage
        ensures { (w : World) (r : Run) → Shows runner.now w r → ((n : ℕ) → contains nat_cmp self.now.filled n ≡ is_listed r.since.filled (suc n))
            → own_instr w r ≡ Some instr.now → Stands w r (marks_of self.now.marks) result }
    {
        let read = self.instr_read(runner, instr);
        self.marks.look(instr, runner.own(), runner.mem(), read)
    }

    // The same of its next one, if the run from a restart is followed and it completes any.
    fn next_passage(&self, runner: &Runner) -> Option<Passage>
        ensures { (w : World) (ms : Moves) (m : Move) → Accepted w → Shows runner.now w (run w ms) → KeepsUses w ms self.now → StandsIf w (run w ms) m (marks_of self.now.marks) result }
    {
        if runner.restarts() == 0 {
            return None;
        }
        if !runner.whole() {
            return None;
        }
        match own_instr(runner) {
            Some(instr) => Some(self.passage(runner, &instr)),
            None => None,
        }
    }

    // The same before a move: only one of the own hart completes an instruction.
    fn move_passage(&self, step: Move, runner: &Runner) -> Option<Passage>
        ensures { (w : World) (ms : Moves) → Accepted w → Shows runner.now w (run w ms) → KeepsUses w ms self.now → StandsIf w (run w ms) step (marks_of self.now.marks) result }
    {
        match step {
            Move::O => self.next_passage(runner),
            Move::S => None,
            Move::T => None,
            Move::D => None,
        }
    }

    /// What is to be known before a move, where uses are told.
    pub(crate) fn look(&self, step: Move, runner: &Runner) -> Option<Ahead>
        ensures asked { is_some result ≡ self.now.on }
        ensures ahead { (w : World) (ms : Moves) → Accepted w → Shows runner.now w (run w ms) → HasUses w ms self.now → IfSome result (λ a. IsAhead w (run w ms) step (marks_of self.now.marks) a) }
    {
        if !self.on {
            return None;
        }
        Some(Ahead {
            own: runner.own_done(),
            shadow: runner.shadow_done(),
            restarts: runner.restarts(),
            next: self.move_passage(step, runner),
        })
    }

    // Takes the marks past the instruction that the own hart completed in a move, if it did, and tells
    // whether that is the first use.
    fn pass(&mut self, ahead: &Ahead, runner: &Runner) -> Result<bool, NoMemory>
        ensures first { IfOk result (λ first. (w : World) (ms : Moves) (m : Move) (x : Answer) → Accepted w → IsAhead w (run w ms) m (marks_of self.old.marks) ahead.now → Shows runner.now w (step w (run w ms) (m, x)) →
            AreMarksOf w (run w ms) (numbers_of w ms) (marks_of self.old.marks) self.old.unused → first ≡ completes_first_use w (numbers_of w ms) (run w ms) (step w (run w ms) (m, x))) }
        ensures marks { OnOk result ((w : World) (ms : Moves) (m : Move) (x : Answer) → Accepted w → IsAhead w (run w ms) m (marks_of self.old.marks) ahead.now → Shows runner.now w (step w (run w ms) (m, x)) →
            AreMarksOf w (run w ms) (numbers_of w ms) (marks_of self.old.marks) self.old.unused → has_restarted (run w ms) (step w (run w ms) (m, x)) ≡ false →
            AreMarksOf w (step w (run w ms) (m, x)) (numbers_then (numbers_of w ms) (run w ms) (step w (run w ms) (m, x))) (marks_of self.new.marks) self.new.unused) }
        ensures on { self.new.on ≡ self.old.on }
        ensures filled { self.new.filled ≡ self.old.filled }
    {
        if runner.own_done() <= ahead.own {
            return Ok(false);
        }
        let Some(next) = &ahead.next else {
            return Ok(false);
        };
        self.marks.pass(next.change)?;
        let first = both(self.unused, next.used);
        self.unused = both(self.unused, !next.used);
        Ok(first)
    }

    // Takes over what a move tells of fills, before which the shadow had arrived so often.
    fn learn_fill(&mut self, shadow: u64, runner: &Runner) -> Result<(), NoMemory>
        ensures filled { OnOk result ((w : World) (r next : Run) → shadow ≡ r.since.shadow → Shows runner.now w next →
            ((n : ℕ) → contains nat_cmp self.old.filled n ≡ is_listed r.since.filled (suc n)) →
            (n : ℕ) → contains nat_cmp self.new.filled n ≡ is_listed (filled_by false (tells_fill next.notes) r) (suc n)) }
        ensures on { self.new.on ≡ self.old.on }
        ensures marks { self.new.marks ≡ self.old.marks }
        ensures unused { self.new.unused ≡ self.old.unused }
    {
        if !tells_fill(runner.notes()) {
            return Ok(());
        }
        self.filled.insert(shadow)?;
        Ok(())
    }

    // Begins anew.
    fn restart(&mut self)
        ensures marks { marks_of self.new.marks ≡ no_marks }
        ensures unused { self.new.unused ≡ true }
        ensures filled { (n : ℕ) → contains nat_cmp self.new.filled n ≡ false }
        ensures on { self.new.on ≡ self.old.on }
    {
        self.marks.restart();
        self.filled.clear();
        self.unused = true;
    }

    // Takes over a move that was made, and tells whether it completed the first use.
    fn learn_made(&mut self, ahead: &Ahead, runner: &Runner) -> Result<bool, NoMemory>
        ensures first { IfOk result (λ first. (w : World) (ms : Moves) (m : Move) (x : Answer) → Accepted w → IsAhead w (run w ms) m (marks_of self.old.marks) ahead.now → Shows runner.now w (step w (run w ms) (m, x)) →
            KeepsUses w ms self.old → first ≡ completes_first_use w (numbers_of w ms) (run w ms) (step w (run w ms) (m, x))) }
        ensures keeps { OnOk result ((w : World) (ms : Moves) (m : Move) (x : Answer) → Accepted w → IsAhead w (run w ms) m (marks_of self.old.marks) ahead.now → Shows runner.now w (step w (run w ms) (m, x)) →
            KeepsUses w ms self.old → KeepsUses w (ms ++ (m, x) ∷ []) self.new) }
        ensures on { self.new.on ≡ self.old.on }
    {
        let first = self.pass(ahead, runner)?;
        if ahead.restarts < runner.restarts() {
            self.restart();
            return Ok(first);
        }
        self.learn_fill(ahead.shadow, runner)?;
        Ok(first)
    }

    /// Takes over a move, before which this was to be known, and tells whether the own hart completed
    /// the first use in it. `NoMemory` comes only where uses are told; then all that is kept is lost.
    pub(crate) fn learn(&mut self, ahead: &Option<Ahead>, runner: &Runner) -> Result<bool, NoMemory>
        requires { is_some ahead.now ≡ self.old.on }
        ensures first { IfOk result (λ first. (w : World) (ms : Moves) (m : Move) (x : Answer) → Accepted w → IfSome ahead.now (λ a. IsAhead w (run w ms) m (marks_of self.old.marks) a) → Shows runner.now w (step w (run w ms) (m, x)) →
            HasUses w ms self.old → first ≡ (self.old.on && completes_first_use w (numbers_of w ms) (run w ms) (step w (run w ms) (m, x)))) }
        ensures keeps { OnOk result ((w : World) (ms : Moves) (m : Move) (x : Answer) → Accepted w → IfSome ahead.now (λ a. IsAhead w (run w ms) m (marks_of self.old.marks) a) → Shows runner.now w (step w (run w ms) (m, x)) →
            HasUses w ms self.old → HasUses w (ms ++ (m, x) ∷ []) self.new) }
        ensures on { self.new.on ≡ self.old.on }
        ensures err { OnErr result (self.old.on ≡ true) }
    {
        let Some(ahead) = ahead else {
            return Ok(false);
        };
        let first = self.learn_made(ahead, runner)?;
        Ok(first)
    }
}
