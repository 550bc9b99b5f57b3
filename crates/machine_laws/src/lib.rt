//! The machine of a rewritten program is one machine, though it stands twice: over words, as a hart
//! executes them, and over instructions, as the runs of the laws do. The functions do nothing: their
//! contracts are the laws, whose statements stand in specs/.
#![tactic(auto)]

ghost use Rattle.machine_laws.specs.Words.{WordsDecode, StubHasWords, HelpersHaveWords, BlocksHaveWords, GuardHasWords, PatchedDecodes};

/// Each instruction of the stub, of the helpers and of the blocks has a word of 32 bits that decodes
/// to it: no immediate is cut, and no branch or jump is out of its reach. The patched word of any
/// word decodes to the patched instruction of that word.
pub fn emitted_has_words()
    ensures decodes { WordsDecode }
    ensures stub { StubHasWords }
    ensures helpers { HelpersHaveWords }
    ensures blocks { BlocksHaveWords }
    ensures guard { GuardHasWords }
    ensures patched { PatchedDecodes }
{}

ghost use Rattle.machine_laws.specs.OneMachine.{CodeIsWords, FetchesSame, StepsSame, EffectsOfView, StoresSame, QuietLeaves, PartsChange};

/// A run of the laws and a hart over a memory of words are one machine. For every run of an accepted
/// program: its code is so many words of 32 bits; at each pc the run fetches the instruction of the
/// word that stands there, or nothing where no word does; and a word of the program, of the stub and
/// of the running shadow does in the run what `effect_at` says of the run's memory. No word has an
/// effect that isn't its view's. A store changes that memory as `stored_in` says, every other effect
/// leaves it, but for what the two HCALL do, and these change no more than its four parts.
pub fn machine_is_one()
    ensures code { CodeIsWords }
    ensures fetches { FetchesSame }
    ensures steps { StepsSame }
    ensures views { EffectsOfView }
    ensures stores { StoresSame }
    ensures quiet { QuietLeaves }
    ensures parts { PartsChange }
{}
