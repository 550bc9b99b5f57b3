//! The code of a rewritten program, as lists of instructions: the patched text, the blocks of the
//! shadow text, the helpers and the stub. All of it stands in specs/.
#![tactic(auto)]
