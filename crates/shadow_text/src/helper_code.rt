//! The helpers that blocks jump to.

ghost use Rattle.std.specs.Prelude.{◌≡◌, [], ◌∷◌, IfOk, length, map};
ghost use Rattle.spec_base.specs.Layout.{helper_words};
ghost use Rattle.rv_decode.specs.Encoding.{word_of};
ghost use Rattle.code_model.specs.Helpers.{helpers};

use assembler::emit;
use cow_regions::{emit_access, emit_clear};
use hint_log::{emit_append, emit_box_load};
use rv_decode::Instr;
use rv_encode::CodeBuf;
use spec_base::{Layout, NoMemory, Park};
use std::alloc::Global;

/// The 282 words of all helpers, in the order of their offsets.
pub fn helpers(alloc: Global, layout: &Layout) -> Result<Vec<u32>, NoMemory>
    ensures words { IfOk result (λ words. words.items ≡ map word_of (helpers layout.now)) }
    ensures count { IfOk result (λ words. length words.items ≡ helper_words) }
{
    let mut code = CodeBuf::new(alloc);
    emit_access(&mut code, layout)?;
    emit_append(&mut code)?;
    emit_clear(&mut code)?;
    emit_box_load(&mut code)?;
    emit(&mut code, &parks())?;
    Ok(code.close().unwrap())
}

/// FAULT, FULL and LOGFULL.
fn parks() -> [Instr; 3]
    ensures { result ≡ Instr.Hpark Park.Fault ∷ Instr.Hpark Park.Regions
        ∷ Instr.Hpark Park.LogFull ∷ [] }
{
    [
        Instr::Hpark(Park::Fault),
        Instr::Hpark(Park::Regions),
        Instr::Hpark(Park::LogFull),
    ]
}
