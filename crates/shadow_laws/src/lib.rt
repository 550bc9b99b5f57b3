//! The laws of a run that follow from the words of its shadow, which are followed one by one in the
//! crates below. They are stated in `run_laws`. Between two moves a running shadow stands at a row of a
//! block or of a helper (`proofs/Sound`), and each move leads from such a place to such a place again,
//! or stops or parks the shadow.
#![tactic(auto)]
