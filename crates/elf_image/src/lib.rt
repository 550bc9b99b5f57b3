//! The profile of accepted executables: static RV64IM programs in ELF64 files.
//!
//! [`read_as`] gives the image of a file, or the first of seventeen reasons to refuse it.
#![tactic(auto)]

mod fields;
mod header;
mod image;
mod recovery;
mod refusal;
mod scan;
mod sections;
mod segments;

pub use image::{Image, ReadFault, read, read_as, text};
pub use recovery::{Part, RecoverFault, Recovered, recover};
pub use refusal::Refusal;
pub use segments::Segment;

#[cfg(test)]
mod tests;
