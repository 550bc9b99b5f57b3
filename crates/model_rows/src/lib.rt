//! Worked rows of the models: edge cases that compute from the definitions. All of it stands in
//! proofs/.
#![tactic(auto)]
