//! How a command ends, with code and text, and the reading of the file that it acts on.
#![tactic(auto)]

mod image;
mod status;

pub use image::{image_word, read_file};
pub use status::{Status, status_of, tell};
