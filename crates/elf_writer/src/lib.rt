//! The rewritten file: an ELF file with the original's segments, in which the text is patched, and
//! the code of the shadow beside them. It is written in one pass, through a buffer of 65,536 bytes.
#![tactic(auto)]

mod body;
mod buffer;
mod fields;
mod header;
mod laws;
mod part;
mod patch;
mod place;
mod source;
mod stream;
mod table;
mod words;
mod writing;

pub use buffer::{BUFFER_BYTES, Buffer};
pub use laws::each_part_stands_at_its_offset;
pub use patch::{patch_word, ungate_word};
pub use place::part_at;
pub use source::{CodeSource, Parts};
pub use table::length_of;
pub use writing::{Written, length, write, write_from};

#[cfg(test)]
mod tests;
