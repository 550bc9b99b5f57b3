//! The laws of the own side of a rewritten program, for every list of moves and of answers from the
//! outside: preservation, the invisible shadow, progress, and what the stub does. They are stated in
//! `run_laws`, and proved in `proofs`.
#![tactic(auto)]
