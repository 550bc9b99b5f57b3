//! The stub, which performs the calls of a rewritten program.
#![tactic(auto)]

ghost use Rattle.std.specs.Prelude.{◌≡◌, IfOk, map};
ghost use Rattle.rv_decode.specs.Encoding.{word_of};
ghost use Rattle.code_model.specs.Stub.{stub as stub_code};

use hint_log::{emit_box_save, emit_check};
use rv_encode::CodeBuf;
use spec_base::NoMemory;
use std::alloc::Global;

#[cfg(test)]
mod tests;

/// The 71 words of the stub.
pub fn stub(alloc: Global) -> Result<Vec<u32>, NoMemory>
    ensures { IfOk result (λ words. words.items ≡ map word_of stub_code) }
{
    let mut buf = CodeBuf::new(alloc);
    emit_check(&mut buf)?;
    emit_box_save(&mut buf)?;
    Ok(buf.close().unwrap())
}
