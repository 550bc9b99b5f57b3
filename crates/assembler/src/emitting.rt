//! Words of instructions go into a buffer.

ghost use Rattle.std.specs.Prelude.{◌≡◌, OnOk, OnErr};
ghost use Rattle.std.specs.List.{All};
ghost use Rattle.rv_decode.specs.Encoding.{IsEncodable};
ghost use Rattle.assembler.specs.Emitted.{with_code, HasPart};

use rv_decode::Instr;
use rv_encode::{CodeBuf, encode};
use spec_base::NoMemory;

/// Appends the words of these instructions. After NoMemory the buffer holds what it held and then
/// the words of the first few of them.
pub fn emit(buf: &mut CodeBuf, code: &[Instr]) -> Result<(), NoMemory>
    requires { All IsEncodable code.now }
    ensures ok { OnOk result (buf.new ≡ with_code buf.old code.now) }
    ensures err { OnErr result (HasPart buf.old buf.new code.now) }
{
    for instr in code {
        buf.push(encode(instr))?;
    }
    Ok(())
}
