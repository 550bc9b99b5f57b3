//! The parts of the runner of rewritten programs: its counts and notes, what a move answers, and what
//! the calls of both harts need of cache, memory and sinks.
#![tactic(auto)]

mod assuming;
mod counts;
mod fetching;
mod filling;
mod gathering;
mod hinting;
mod laws;
mod notes;
mod putting;
mod reading;
mod restarting;
mod shadow;
#[cfg(test)]
mod tests;
mod turn;

pub use assuming::{
    argument, call_note, key_of_own, key_of_shadow, plan_of_own, plan_of_shadow, word_of,
};
pub use counts::Counts;
pub use fetching::{
    blocks_had, end_of_finish, finish_at, finish_beside, still_waits, tell_finish, turn_of_finish,
};
pub use filling::fill_held;
pub use gathering::need_rest;
pub use hinting::{block_count, hint_blocks};
pub use laws::bytes_are_staged;
pub use notes::Notes;
pub use putting::{put_from, put_through, put_to, still_whole, tell_put};
pub use reading::{block_behind, bytes_of, count_note, fill_staged, tell_read};
pub use restarting::{both, tell_restart};
pub use shadow::{arrives, regions_in_use, runs};
pub use turn::{End, Turn, turn_after};
