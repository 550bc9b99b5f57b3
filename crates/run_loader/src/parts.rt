//! The parts of the rewritten program that a rewritten file carries.

ghost use Rattle.std.specs.Prelude.{◌≡◌, map, IfOk};
ghost use Rattle.code_model.specs.Patch.{patched_word};
ghost use Rattle.elf_image.specs.Image.{text_words};
ghost use Rattle.elf_image.specs.Recovery.{IsRecovered};
ghost use Rattle.elf_writer.specs.ProgramCode.{code_of_text, ungated_word};
ghost use Rattle.elf_writer.specs.Writing.{listed};
ghost use Rattle.run_loader.specs.Loading.{carried_in};

use elf_image::{Recovered, text};
use elf_writer::{Parts, patch_word, ungate_word};
use hint_stub::stub;
use shadow_text::{blocks, helpers};
use spec_base::NoMemory;
use std::alloc::Global;

/// Reads each gate of a patched text as the call that it stands for.
fn ungate(words: &mut [u32])
    ensures { words.new ≡ map ungated_word words.old }
{
    for word in words.iter_mut() {
        *word = ungate_word(*word);
    }
}

/// Patches a text.
fn patch(words: &mut [u32])
    ensures { words.new ≡ map patched_word words.old }
{
    for word in words.iter_mut() {
        *word = patch_word(*word);
    }
}

/// The parts of the rewritten program that a file carries, made from its text again.
pub(crate) fn parts_again(
    alloc: Global,
    bytes: &[u8],
    recovered: Recovered,
) -> Result<Parts, NoMemory>
    requires { IsRecovered bytes.now recovered }
    ensures carries { IfOk result (λ parts. carried_in parts ≡ recovered) }
    ensures code { IfOk result (λ parts. listed parts ≡ code_of_text parts.layout (map ungated_word (text_words bytes.now parts.image))) }
{
    let layout = recovered.layout;
    let mut words = text(alloc, bytes, &recovered.image)?;
    ungate(&mut words);
    let shadow = blocks(alloc, &words, &layout)?;
    let helpers = helpers(alloc, &layout)?;
    let stub = stub(alloc)?;
    patch(&mut words);
    Ok(Parts {
        image: recovered.image,
        layout,
        text: words,
        shadow,
        helpers,
        stub,
    })
}
