//! Writing to a sink.

ghost use Rattle.std.specs.Prelude.{◌<◌, IsTrue, length};
ghost use Rattle.rv_model.specs.Memory.{all_from, bytes_at};
ghost use Rattle.hart_step.specs.Core.{core_of};
ghost use Rattle.rv_model.specs.Data.{data_in, memory_in};
ghost use Rattle.plain_runner.specs.Outcomes.{PutComesTo, OfferComesTo};

use crate::answering::answer;
use crate::ending::Ending;
use hart_step::Hart;
use rv_model::Bytes;
use world_io::{Put, Sink};

/// Offers bytes of memory to a sink, in one put, and answers how many it took. They are those from an
/// address on, as many as the buffer has room for, through which they go.
fn put<B: Bytes, K: Sink>(
    hart: &mut Hart,
    mem: &B,
    address: u64,
    buffer: &mut [u8],
    sink: &mut K,
) -> Option<Ending>
    requires some { 0 < length buffer.old }
    requires data { IsTrue (all_from (data_in (B.byte_at mem.now)) address (length buffer.old)) }
    ensures { PutComesTo (bytes_at (memory_in (B.byte_at mem.now)) address (length buffer.old)) (K.state sink.old) (core_of hart.old) result (core_of hart.new) (K.state sink.new) }
{
    mem.copy_to(address, buffer);
    match sink.put(buffer) {
        Put::Took(taken) => {
            answer(hart, taken as u64);
            None
        }
        Put::Failed => Some(Ending::SinkFault),
    }
}

/// Offers bytes of memory, as `put` does, to standard output if `to_out` says so, else to standard
/// error.
pub fn offer<B: Bytes, O: Sink, E: Sink>(
    hart: &mut Hart,
    mem: &B,
    to_out: bool,
    address: u64,
    buffer: &mut [u8],
    out: &mut O,
    err: &mut E,
) -> Option<Ending>
    requires some { 0 < length buffer.old }
    requires data { IsTrue (all_from (data_in (B.byte_at mem.now)) address (length buffer.old)) }
    ensures { OfferComesTo to_out (bytes_at (memory_in (B.byte_at mem.now)) address (length buffer.old)) (O.state out.old) (E.state err.old) (core_of hart.old)
        result (core_of hart.new) (O.state out.new) (E.state err.new) }
{
    if to_out {
        put(hart, mem, address, buffer, out)
    } else {
        put(hart, mem, address, buffer, err)
    }
}
