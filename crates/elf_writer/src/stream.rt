//! Bytes on their way through a buffer to a sink.

ghost use Rattle.std.specs.Prelude.{◌≡◌, ◌<◌, ◌≤◌, [], length, replicate, is_ok, OnOk};
ghost use Rattle.elf_writer.specs.Streams.{Gives, PutsRests};

use crate::buffer::Staging;
use world_io::{Put, Sink};

/// A put failed, and the sink counted it.
#[derive(Clone, Copy, Debug, PartialEq, Eq)]
pub(crate) struct SinkFault;

/// How many zeros are given at a time.
const ZERO_BYTES: usize = 64;

const ZEROS: [u8; ZERO_BYTES] = [0; ZERO_BYTES];

/// Puts bytes until all are taken. Each put offers what is left of them.
pub(crate) fn put_rests<O: Sink>(sink: &mut O, bytes: &[u8]) -> Result<(), SinkFault>
    ensures { PutsRests (O.state sink.old) bytes.now (is_ok result) (O.state sink.new) }
{
    let mut rest = bytes;
    while !rest.is_empty() {
        match sink.put(rest) {
            Put::Took(count) => rest = &rest[count..],
            Put::Failed => return Err(SinkFault),
        }
    }
    Ok(())
}

/// Puts the bytes that are held back, and lets them go.
pub(crate) fn flush<S: Staging, O: Sink>(staging: &mut S, sink: &mut O) -> Result<(), SinkFault>
    ensures puts { PutsRests (O.state sink.old) (S.held staging.old) (is_ok result) (O.state sink.new) }
    ensures few { length (S.held staging.old) ≤ S.size staging.old }
    ensures held { S.held staging.new ≡ [] }
    ensures size { S.size staging.new ≡ S.size staging.old }
{
    let done = put_rests(sink, staging.held());
    staging.clear();
    done
}

/// Puts the buffer if it is full.
fn make_room<S: Staging, O: Sink>(staging: &mut S, sink: &mut O) -> Result<(), SinkFault>
    ensures gives { Gives (S.size staging.old) (S.held staging.old) (O.state sink.old) [] (is_ok result) (S.held staging.new) (O.state sink.new) }
    ensures room { OnOk result (length (S.held staging.new) < S.size staging.new) }
    ensures size { S.size staging.new ≡ S.size staging.old }
{
    if staging.room() == 0 {
        flush(staging, sink)
    } else {
        Ok(())
    }
}

/// Holds back more bytes, and puts the buffer each time that it is full and more come.
pub(crate) fn give<S: Staging, O: Sink>(
    staging: &mut S,
    sink: &mut O,
    bytes: &[u8],
) -> Result<(), SinkFault>
    ensures gives { Gives (S.size staging.old) (S.held staging.old) (O.state sink.old) bytes.now (is_ok result) (S.held staging.new) (O.state sink.new) }
    ensures size { S.size staging.new ≡ S.size staging.old }
{
    let mut rest = bytes;
    while !rest.is_empty() {
        make_room(staging, sink)?;
        let count = rest.len().min(staging.room());
        staging.hold(&rest[..count]);
        rest = &rest[count..];
    }
    Ok(())
}

/// Gives so many zeros.
pub(crate) fn give_zeros<S: Staging, O: Sink>(
    staging: &mut S,
    sink: &mut O,
    count: u64,
) -> Result<(), SinkFault>
    ensures gives { Gives (S.size staging.old) (S.held staging.old) (O.state sink.old) (replicate count 0) (is_ok result) (S.held staging.new) (O.state sink.new) }
    ensures size { S.size staging.new ≡ S.size staging.old }
{
    let mut left = count;
    while left != 0 {
        let some = left.min(ZERO_BYTES as u64);
        give(staging, sink, &ZEROS[..some as usize])?;
        left -= some;
    }
    Ok(())
}
