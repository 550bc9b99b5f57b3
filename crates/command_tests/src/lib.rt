//! Tests of the commands. They stand apart, so that the proofs of the commands aren't made a second time for them.
#![tactic(auto)]

#[cfg(test)]
mod tests;
