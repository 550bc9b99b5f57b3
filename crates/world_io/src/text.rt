//! Texts, which are put until they are whole.
ghost use Rattle.std.specs.Prelude.{◌≡◌, ◌≤◌, ◌<◌, ℕ, length};
ghost use Rattle.world_io.specs.Texts.{PutsText, IsPutSurely};

use crate::sink::{Put, Sink};

/// Puts the bytes, in as many puts as it takes. False where a put failed: then only a part of the
/// bytes was taken, and no other put was made. A text within the sure room is put whole.
pub fn put_all<K: Sink>(sink: &mut K, bytes: &[u8]) -> bool
    ensures puts { PutsText (K.state sink.old) bytes.now result (K.state sink.new) }
    ensures sure { IsPutSurely (K.state sink.old).room (length bytes.now) result }
{
    let mut rest = bytes;
    while !rest.is_empty() {
        match sink.put(rest) {
            Put::Took(count) => rest = &rest[count..],
            Put::Failed => return false,
        }
    }
    true
}
