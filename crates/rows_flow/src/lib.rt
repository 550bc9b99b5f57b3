//! How the shadow's words of blocks that access no memory are followed, one by one: of instructions
//! that only compute, of auipc, branches and jumps, and of blocks that park. The rows stand in
//! `specs`, and what is so of them in `proofs`; how a row is read stands in `side_model`.
#![tactic(auto)]
