//! The lines of a trace, written and read, and the report of a run.
#![tactic(auto)]

mod fields;
mod keyword;
mod laws;
mod lines;
mod numbers;
mod reading;
mod reporting;
mod trace_line;
mod words;
mod writing;

pub use keyword::trap_text;
pub use laws::{
    note_lines_are_read, only_printed_is_read, turns_lines_are_read, use_lines_are_read,
};
pub use lines::cut_line;
pub use reading::parse_line;
pub use reporting::{Counts, push_count, report};
pub use trace_line::{TraceBody, TraceLine};
pub use writing::{line, turns_line, use_line};

#[cfg(test)]
mod tests;
