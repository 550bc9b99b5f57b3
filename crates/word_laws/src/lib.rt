//! The run after one word of a hart, by what the step of the hart tells: each part of it that a hart
//! and a memory have is as they are after the step. The function does nothing: its contract is the
//! laws, whose statements stand in specs/.
#![tactic(auto)]

ghost use Rattle.word_laws.specs.ShadowWords.{ShadowWordsLead};
ghost use Rattle.word_laws.specs.OwnWords.{ProgramWordsLead, StubWordsLead};

/// Where a hart and a memory show the running shadow of a run of an accepted program, or its own hart
/// in the program or in the stub, a step of them leads to the run that its event names. What stood at
/// the pc is told as far as it is a call.
pub fn words_lead()
    ensures shadow { ShadowWordsLead }
    ensures program { ProgramWordsLead }
    ensures stub { StubWordsLead }
{}
