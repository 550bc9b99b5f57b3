//! The vocabulary that every crate shares: registers, file names, traps, views, the layout of a
//! rewritten program, and what a run tells of its moves.
#![tactic(auto)]

mod file_name;
mod layout;
mod list;
mod machine;
mod memory_fault;
mod note;
mod park;
mod reg;
mod spot;

pub use file_name::Name;
pub use layout::{
    COPIES_START, COPY_BYTES, HELPER_WORDS, HELPERS_START, LINK_BYTES, LINK_START, LIST_START,
    Layout, MAX_REGIONS, MAX_TEXT_BYTES, PRIVATE_BYTES, PRIVATE_START, RANGE_START, SHADOW_START,
    STUB_START, STUB_WORDS, TABLE_START, Version,
};
pub use list::List;
pub use machine::{Trap, View};
pub use memory_fault::NoMemory;
pub use note::{Move, Note, ShadowState};
pub use park::Park;
pub use reg::Reg;
pub use spot::{BlockSpot, ReadSpot};
