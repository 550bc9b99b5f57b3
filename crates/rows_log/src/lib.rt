//! How the shadow's words that touch the hint log and the restart box are followed, one by one: the
//! block of a call with the helper APPEND, and the helper RESTART. The rows stand in `specs`, and
//! what is so of them in `proofs`; how a row is read stands in `side_model`.
#![tactic(auto)]
