//! Words on their way to a sink.

ghost use Rattle.std.specs.Prelude.{◌≡◌, ◌*◌, ◌+◌, ◌<◌, ◌≤◌, length, is_ok};
ghost use Rattle.std.specs.Int.{w32, to_le_bytes};
ghost use Rattle.elf_writer.specs.RewrittenFile.{word_bytes};
ghost use Rattle.elf_writer.specs.Streams.{Gives};

use crate::buffer::Staging;
use crate::source::CodeSource;
use crate::stream::{SinkFault, give};
use byteorder::{ByteOrder, LittleEndian};
use world_io::Sink;

/// Gives a word.
fn give_word<S: Staging, O: Sink>(staging: &mut S, sink: &mut O, word: u32) -> Result<(), SinkFault>
    ensures gives { Gives (S.size staging.old) (S.held staging.old) (O.state sink.old) (to_le_bytes w32 word) (is_ok result) (S.held staging.new) (O.state sink.new) }
    ensures size { S.size staging.new ≡ S.size staging.old }
{
    give(staging, sink, &word.to_le_bytes())
}

/// Gives the words of a block, all at once.
fn give_block<S: Staging, O: Sink>(
    staging: &mut S,
    sink: &mut O,
    words: &[u32; 16],
) -> Result<(), SinkFault>
    ensures gives { Gives (S.size staging.old) (S.held staging.old) (O.state sink.old) (word_bytes words.now) (is_ok result) (S.held staging.new) (O.state sink.new) }
    ensures size { S.size staging.new ≡ S.size staging.old }
{
    let mut bytes = [0; 64];
    LittleEndian::write_u32_into(words, &mut bytes);
    give(staging, sink, &bytes)
}

/// Gives the words of the patched text.
pub(crate) fn give_text<C: CodeSource, S: Staging, O: Sink>(
    staging: &mut S,
    sink: &mut O,
    code: &C,
    count: u64,
) -> Result<(), SinkFault>
    requires { length (C.code code.now).text ≡ count }
    ensures gives { Gives (S.size staging.old) (S.held staging.old) (O.state sink.old) (word_bytes (C.code code.now).text) (is_ok result) (S.held staging.new) (O.state sink.new) }
    ensures size { S.size staging.new ≡ S.size staging.old }
{
    for index in 0..count {
        give_word(staging, sink, code.text(index))?;
    }
    Ok(())
}

/// Gives the blocks of the shadow text.
pub(crate) fn give_shadow<C: CodeSource, S: Staging, O: Sink>(
    staging: &mut S,
    sink: &mut O,
    code: &C,
    blocks: u64,
) -> Result<(), SinkFault>
    requires { length (C.code code.now).shadow ≡ 16 * blocks }
    ensures gives { Gives (S.size staging.old) (S.held staging.old) (O.state sink.old) (word_bytes (C.code code.now).shadow) (is_ok result) (S.held staging.new) (O.state sink.new) }
    ensures size { S.size staging.new ≡ S.size staging.old }
{
    for block in 0..blocks {
        give_block(staging, sink, &code.shadow(block))?;
    }
    Ok(())
}

/// Gives the words of the helpers.
pub(crate) fn give_helpers<C: CodeSource, S: Staging, O: Sink>(
    staging: &mut S,
    sink: &mut O,
    code: &C,
    count: u64,
) -> Result<(), SinkFault>
    requires { length (C.code code.now).helpers ≡ count }
    ensures gives { Gives (S.size staging.old) (S.held staging.old) (O.state sink.old) (word_bytes (C.code code.now).helpers) (is_ok result) (S.held staging.new) (O.state sink.new) }
    ensures size { S.size staging.new ≡ S.size staging.old }
{
    for index in 0..count {
        give_word(staging, sink, code.helper(index))?;
    }
    Ok(())
}

/// Gives the words of the stub.
pub(crate) fn give_stub<C: CodeSource, S: Staging, O: Sink>(
    staging: &mut S,
    sink: &mut O,
    code: &C,
    count: u64,
) -> Result<(), SinkFault>
    requires { length (C.code code.now).stub ≡ count }
    ensures gives { Gives (S.size staging.old) (S.held staging.old) (O.state sink.old) (word_bytes (C.code code.now).stub) (is_ok result) (S.held staging.new) (O.state sink.new) }
    ensures size { S.size staging.new ≡ S.size staging.old }
{
    for index in 0..count {
        give_word(staging, sink, code.stub(index))?;
    }
    Ok(())
}
