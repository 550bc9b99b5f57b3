//! Small executables: that of the command `demo`, and those of tests.
#![tactic(auto)]

mod demo;
mod executable;
#[cfg(test)]
mod tests;

pub use demo::{DEMO_RECORDS, data_file, demo_image, demo_words};
pub use executable::{one_segment, two_segments};
