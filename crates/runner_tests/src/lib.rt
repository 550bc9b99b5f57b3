//! Tests of the runner of rewritten programs. They stand apart, so that the runner isn't proved a second time for them.
#![tactic(auto)]

#[cfg(test)]
mod caching;
#[cfg(test)]
mod hints;
#[cfg(test)]
mod lockstep;
#[cfg(test)]
mod machines;
#[cfg(test)]
mod restarts;
#[cfg(test)]
mod turns;
