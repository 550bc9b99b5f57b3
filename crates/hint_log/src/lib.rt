//! The hint log and the restart box: the code that appends a keyed read to the log, that compares
//! a call with the oldest pair of it, and that writes and reads the box; and what both hold while
//! a rewritten program runs.
#![tactic(auto)]

mod log_code;
mod reading;
#[cfg(test)]
mod reading_tests;
mod restart_box;
#[cfg(test)]
mod tests;

pub use log_code::{emit_append, emit_check};
pub use reading::{boxed, boxed_site, entry, len};
pub use restart_box::{emit_box_load, emit_box_save};
