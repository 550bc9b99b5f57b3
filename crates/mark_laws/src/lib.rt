//! The laws of marks: what may rest on bytes that a skipped read left unfilled. Which bytes are
//! marked, unfilled or settled along the run from a restart, for every list of moves and of answers
//! from the outside; and what one instruction that is no use leaves alike. Marks and unfilled bytes
//! are defined in `run_model`'s specs, all else in `specs`.
#![tactic(auto)]

ghost use Rattle.mark_laws.specs.Agreement.{FlowAgrees, LoadAgrees, StoreAgrees, PlanAgrees, CallAgrees, NameIsNoRead};

/// An instruction that is no use keeps a second hart in agreement with the plain run outside the
/// marks. Where the hart goes on, so does the run: at the same place, with a load or a store at the
/// same address. A call has the same plan, and behind it the same descriptors and the same answer in
/// x10; what a read that isn't filled would write is marked, and a name that is taken is no read.
pub fn one_instruction_agrees()
    ensures flow { FlowAgrees }
    ensures load { LoadAgrees }
    ensures store { StoreAgrees }
    ensures plan { PlanAgrees }
    ensures call { CallAgrees }
    ensures name { NameIsNoRead }
{}

ghost use Rattle.mark_laws.specs.Sizes.{PlansFindAll, StatesFindAll, CallsKeepSizes, PerformedKeepSizes, NextKeepsSizes, StatesKeepSizes, SizesAreTrue};

/// The size that an open file's descriptor has is the size of the file: so it is at a start, behind
/// each call and each instruction, and so in every run of an accepted rewritten program, now, at its
/// last gate, where it was last restarted, and in each state of the run from there. With such
/// descriptors a read asks for no more bytes than the file has from its offset on.
pub fn sizes_are_true()
    ensures plans { PlansFindAll }
    ensures states { StatesFindAll }
    ensures calls { CallsKeepSizes }
    ensures performed { PerformedKeepSizes }
    ensures next { NextKeepsSizes }
    ensures later { StatesKeepSizes }
    ensures runs { SizesAreTrue }
{}

ghost use Rattle.mark_laws.specs.Settled.{SetsRestOnNumbers, HorizonRestsOnFilled, RestartRestsOnOrigin, OthersAreLeft, ChangesAreCovered, OwnChangesAreCovered};

/// What is marked, unfilled or settled after i instructions, and whether a use or the horizon has come
/// by instruction i + 1, rests on the state before the restarting read and on the numbers up to i of
/// the filled reads; the run from the restart, on that state alone. Each of its instructions leaves
/// the bytes that it neither stores nor reads into, and what the first i have changed is marked or
/// settled. So is what an own move changes in the program's memory, if it makes no restart, each put
/// was whole, and at most i instructions are completed since the restart.
pub fn changes_are_covered()
    ensures numbers { SetsRestOnNumbers }
    ensures horizon { HorizonRestsOnFilled }
    ensures restart { RestartRestsOnOrigin }
    ensures others { OthersAreLeft }
    ensures covered { ChangesAreCovered }
    ensures own { OwnChangesAreCovered }
{}
