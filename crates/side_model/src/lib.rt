//! How the words of the shadow are followed, one by one, whatever comes between them: where it is,
//! its registers and private places, the region table and the region list. A family of rows says
//! what is known before each word, and a clause a word where it is led; how rows are written stands
//! above `Led` in `specs/Rows`. What is so of a row is so in every run that shows it, by
//! `proofs/Stepping`, and no word that is led traps in one, by `proofs/NoTraps`. The helper JUMP is
//! followed here; the blocks and the other helpers are followed in crates above.
#![tactic(auto)]
