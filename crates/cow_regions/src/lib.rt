//! The regions of 256 bytes, some of which a shadow has copies of. The code that is emitted for
//! them finds the place of an access, makes a copy for a store, and clears all regions. At run time
//! the table and the copies are read, and copies are made and filled.
#![tactic(auto)]

mod access;
mod clearing;
mod copying;
mod filling;
mod numbers;
mod shadowed;
mod tables;
mod tails;
#[cfg(test)]
mod tests;

pub use access::emit_access;
pub use clearing::emit_clear;
pub use filling::{Fitted, fill_copies};
pub use shadowed::Shadowed;
pub use tables::{slot_of, used};
