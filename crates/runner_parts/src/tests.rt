//! Counts, notes and turns.

use crate::{Counts, End, Notes, Turn, turn_after};
use spec_base::{Note, Park, Trap};
use std::test::Fail;

// What a move comes to, by how the run has ended in it.
#[test]
fn turns_tell_the_end(rt: HostRuntime) -> Result<(), Fail> {
    let rows = [
        (None, Turn::Went),
        (Some(End::Exit(7)), Turn::Ended(End::Exit(7))),
        (
            Some(End::Trap(Trap::Illegal, 64)),
            Turn::Ended(End::Trap(Trap::Illegal, 64)),
        ),
        (Some(End::Store), Turn::StoreFault),
        (Some(End::Sink), Turn::SinkFault),
    ];
    for (end, turn) in &rows {
        assert!(rt; turn_after(end) == *turn);
    }
    Ok(())
}

// One move in which an instruction completes, before any restart.
#[test]
fn counts_begin_at_zero(rt: HostRuntime) -> Result<(), Fail> {
    let mut counts = Counts::new();
    counts.begin();
    counts.complete();
    assert!(rt; counts.moves() == 1);
    assert!(rt; counts.never_restarted());
    assert!(rt; counts.stays_behind());
    Ok(())
}

// A hint and a fill are told in one move.
#[test]
fn notes_hold_two(rt: HostRuntime) -> Result<(), Fail> {
    let mut notes = Notes::new();
    notes.set(Note::Park(Park::Exit));
    notes.add(Note::Fault);
    assert!(rt; notes.as_slice().len() == 2);
    notes.clear();
    assert!(rt; notes.as_slice().is_empty());
    Ok(())
}
