//! Bytes of memory are offered to a sink, and what is told of it.

ghost use Rattle.std.specs.Prelude.{◌≡◌, ◌<◌, ◌≤◌, ◌&&◌, ◌||◌, ◌==◌, ◌∷◌, [], IsTrue, length, take};
ghost use Rattle.spec_base.specs.declared.note.Note.TheVariants as note;
ghost use Rattle.rv_model.specs.Data.{data_in, memory_in};
ghost use Rattle.rv_model.specs.Memory.{all_from, bytes_at};
ghost use Rattle.run_model.specs.OwnMoves.{sink_number};
ghost use Rattle.hart_mem.specs.Held.{space_of, data_byte};
ghost use Rattle.runner_parts.specs.OwnCalls.{TakesSome, Offers};

use crate::notes::Notes;
use hart_mem::Mem;
use rv_model::Bytes;
use spec_base::Note;
use world_io::{Put, Sink};

/// Offers bytes to standard output or to standard error, in one put.
pub fn put_to<O: Sink, E: Sink>(to_out: bool, bytes: &[u8], out: &mut O, err: &mut E) -> Put
    requires { 0 < length bytes.now }
    ensures offers { Offers to_out bytes.now (O.state out.old) (E.state err.old) result (O.state out.new) (E.state err.new) }
    ensures some { TakesSome (length bytes.now) result }
{
    if to_out {
        out.put(bytes)
    } else {
        err.put(bytes)
    }
}

/// Offers bytes of memory, which go through a buffer of their count.
pub fn put_from<O: Sink, E: Sink>(
    mem: &Mem,
    to_out: bool,
    address: u64,
    piece: &mut [u8],
    out: &mut O,
    err: &mut E,
) -> Put
    requires some { 0 < length piece.old }
    requires data { IsTrue (all_from (data_in (data_byte (space_of mem.now))) address (length piece.old)) }
    ensures bytes { piece.new ≡ bytes_at (memory_in (data_byte (space_of mem.now))) address (length piece.old) }
    ensures offers { Offers to_out (bytes_at (memory_in (data_byte (space_of mem.now))) address (length piece.old)) (O.state out.old) (E.state err.old) result (O.state out.new) (E.state err.new) }
    ensures taken { TakesSome (length piece.old) result }
{
    mem.copy_to(address, piece);
    put_to(to_out, piece, out, err)
}

/// The same through the front of a longer buffer.
pub fn put_through<O: Sink, E: Sink>(
    mem: &Mem,
    to_out: bool,
    address: u64,
    count: usize,
    buffer: &mut [u8],
    out: &mut O,
    err: &mut E,
) -> Put
    requires some { 0 < count }
    requires fits { count ≤ length buffer.old }
    requires data { IsTrue (all_from (data_in (data_byte (space_of mem.now))) address count) }
    ensures bytes { take count buffer.new ≡ bytes_at (memory_in (data_byte (space_of mem.now))) address count }
    ensures offers { Offers to_out (bytes_at (memory_in (data_byte (space_of mem.now))) address count) (O.state out.old) (E.state err.old) result (O.state out.new) (E.state err.new) }
    ensures taken { TakesSome count result }
{
    put_from(mem, to_out, address, &mut buffer[..count], out, err)
}

/// Whether each put was taken whole, also this one.
pub fn still_whole(whole: bool, taken: usize, count: usize, never_restarted: bool) -> bool
    ensures { result ≡ (whole && ((taken == count) || never_restarted)) }
{
    whole && (taken == count || never_restarted)
}

// The number of a sink.
fn sink_number(to_out: bool) -> u8
    ensures { result ≡ sink_number to_out }
{
    if to_out { 1 } else { 2 }
}

/// Tells a put, and its call.
pub fn tell_put(notes: &mut Notes, to_out: bool, taken: usize, call: Note)
    ensures { notes.new ≡ note.Text (sink_number to_out) taken ∷ call ∷ [] }
{
    notes.set(Note::Text {
        to: sink_number(to_out),
        count: taken,
    });
    notes.add(call);
}
