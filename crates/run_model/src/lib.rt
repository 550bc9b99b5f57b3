//! The meaning of a run of a rewritten program, move by move. All of it stands in specs/.
#![tactic(auto)]
