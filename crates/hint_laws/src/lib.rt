//! The hints of a shadow are true: it follows the run from its restart, outside what may rest on bytes
//! that a skipped read left unfilled, up to the first use of such a value. The laws are stated in
//! `run_laws`. What is so of a run between any two moves stands in `proofs/Followed`, and how a word
//! leads from one place to the next in `proofs/Within` and `proofs/WithinSteps`.
#![tactic(auto)]
