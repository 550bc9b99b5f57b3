//! The words of instructions, and code whose jumps go to labels.
#![tactic(auto)]

mod buffer;
mod closing;
mod encoding;
mod formats;
mod label;
mod selectors;
#[cfg(test)]
mod tests;

pub use buffer::CodeBuf;
pub use closing::CloseFault;
pub use encoding::encode;
pub use label::Label;
