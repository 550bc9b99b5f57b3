//! The outside of the product: a store of files that are read in blocks, and sinks of bytes.
#![tactic(auto)]

mod buf_sink;
mod clean_store;
mod count_sink;
mod file_map;
mod host_sink;
mod host_store;
mod mem_sink;
mod mem_store;
mod sink;
mod store;
#[cfg(test)]
mod tests;
mod text;

pub use buf_sink::BufSink;
pub use clean_store::CleanStore;
pub use count_sink::CountSink;
pub use host_sink::HostSink;
pub use host_store::HostStore;
pub use mem_sink::MemSink;
pub use mem_store::MemStore;
pub use sink::{Put, Sink};
pub use store::{BLOCK, Fetch, Look, Store};
pub use text::put_all;
