//! Lines, each put by itself.

ghost use Rattle.std.specs.Prelude.{◌≡◌, ◌∷◌, [], IfOk};
ghost use Rattle.program_driver.specs.Lines.{Line, PutsLine, LinesTo, note_lines, fault_ending, ending_with};

use plain_runner::Ending;
use spec_base::{NoMemory, Note};
use std::alloc::Global;
use trace_text::line;
use world_io::{Put, Sink};

/// Why a line wasn't put whole.
#[derive(Clone, Copy, Debug, PartialEq, Eq)]
pub enum LineFault {
    /// A put failed, and it is the last.
    Sink,
    /// An allocation was refused.
    NoMemory,
}

/// The ending that it makes.
pub fn fault_ending(fault: LineFault) -> Ending
    ensures { result ≡ fault_ending fault }
{
    match fault {
        LineFault::Sink => Ending::SinkFault,
        LineFault::NoMemory => Ending::NoMemory,
    }
}

/// The ending of a run behind which lines were put, or some.
pub fn ending_with(ending: Ending, answer: Result<(), LineFault>) -> Ending
    ensures { result ≡ ending_with ending answer }
{
    match answer {
        Ok(()) => ending,
        Err(fault) => fault_ending(fault),
    }
}

/// Puts a line, in as many puts as it takes, of which each offers all that is left. False where a put
/// failed, which is the last then.
fn put_line<K: Sink>(sink: &mut K, line: &[u8]) -> bool
    ensures { PutsLine (K.state sink.old) line.now result (K.state sink.new) }
{
    let mut rest = line;
    while !rest.is_empty() {
        match sink.put(rest) {
            Put::Took(count) => rest = &rest[count..],
            Put::Failed => return false,
        }
    }
    true
}

/// Puts a line, if there was memory for it.
pub fn put_made<K: Sink>(sink: &mut K, made: Result<Vec<u8>, NoMemory>) -> Result<(), LineFault>
    ensures { (line : Line) → IfOk made (λ bytes. bytes.items ≡ line) → LinesTo (line ∷ []) result (K.state sink.old) (K.state sink.new) }
{
    let Ok(line) = made else {
        return Err(LineFault::NoMemory);
    };
    if put_line(sink, &line) {
        Ok(())
    } else {
        Err(LineFault::Sink)
    }
}

/// Puts the lines of notes, with the completed own instructions, the shadow's arrivals, and the bytes
/// that the move put.
pub fn put_notes<K: Sink>(
    alloc: Global,
    own: u64,
    shadow: u64,
    notes: &[Note],
    text: &[u8],
    sink: &mut K,
) -> Result<(), LineFault>
    ensures { LinesTo (note_lines own shadow notes.now text.now) result (K.state sink.old) (K.state sink.new) }
{
    for note in notes {
        if let Err(fault) = put_made(sink, line(alloc, own, shadow, note, text)) {
            return Err(fault);
        }
    }
    Ok(())
}
