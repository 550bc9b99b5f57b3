//! A buffer of code whose jumps go to labels.

ghost use Rattle.std.specs.Prelude.{◌≡◌, ◌+◌, ◌<◌, ◌++◌, ◌∷◌, [], Some, None, Ok, Err, IfOk, OnOk, OnErr, MatchResult, length, slice_set, slice_get};
ghost use Rattle.rv_encode.specs.Code.{IsJump, closed_of};
ghost use Rattle.rv_encode.specs.Resolved.{LabelsResolved};

use crate::closing::{CloseFault, Use, far_label, resolve, unbound_label};
use crate::label::Label;
use rv_decode::Instr;
use spec_base::NoMemory;
use std::alloc::Global;
use std::marker::Model;

/// Code whose jumps go to labels. A contract sees the words so far, the jumps whose words are to
/// come (each with the index of its word and the number of its label), and the place of each
/// label, which is the index of a word, or None.
#[derive(Drop)]
pub struct CodeBuf {
    words: Vec<u32>,
    uses: Vec<Use>,
    places: Vec<Option<usize>>,
}

impl Model for CodeBuf {
    ghost use Rattle.rv_encode.specs.Code.{Code};

    ghost Value = { Code };

    ghost use Rattle.rv_encode.specs.Buffer.{code_in, IsCode};

    ghost view = { code_in };

    ghost invariant = { IsCode };
}

impl CodeBuf {
    /// A buffer without words or labels. It takes no memory.
    pub fn new(alloc: Global) -> Self
        ensures { result ≡ record { words = []; uses = []; places = [] } }
    {
        CodeBuf {
            words: Vec::new(alloc),
            uses: Vec::new(alloc),
            places: Vec::new(alloc),
        }
    }

    /// Appends a word. After NoMemory the buffer is as before.
    pub fn push(&mut self, word: u32) -> Result<(), NoMemory>
        ensures ok { OnOk result (self.new ≡ record self.old { words = self.old.words ++ word ∷ [] }) }
        ensures err { OnErr result (self.new ≡ self.old) }
    {
        self.words.push(word)?;
        Ok(())
    }

    /// A new label, which has no place. After NoMemory the buffer is as before.
    pub fn label(&mut self) -> Result<Label, NoMemory>
        ensures ok { IfOk result (λ label. (label ≡ length self.old.places) × (self.new ≡ record self.old { places = self.old.places ++ None ∷ [] })) }
        ensures err { OnErr result (self.new ≡ self.old) }
    {
        let label = Label::new(self.places.len());
        self.places.push(None)?;
        Ok(label)
    }

    /// Gives a label of this buffer, which has no place yet, the place of the next word.
    pub fn bind(&mut self, at: Label)
        requires { slice_get self.old.places at ≡ Some None }
        ensures { self.new ≡ record self.old { places = slice_set self.old.places at (Some (length self.old.words)) } }
    {
        let place = self.words.len();
        self.places[at.number()] = Some(place);
    }

    /// Appends a branch or a JAL to a label of this buffer, whatever its own `imm`. The word is 0
    /// until the buffer is closed. After NoMemory the buffer is as before.
    pub fn push_to(&mut self, instr: Instr, to: Label) -> Result<(), NoMemory>
        requires jump { IsJump instr }
        requires label { to < length self.old.places }
        ensures ok { OnOk result (self.new ≡ record self.old { words = self.old.words ++ 0 ∷ []; uses = self.old.uses ++ record { at = length self.old.words; instr = instr; to = to } ∷ [] }) }
        ensures err { OnErr result (self.new ≡ self.old) }
    {
        self.words.reserve(1)?;
        let at = self.words.len();
        self.uses.push(Use { at, instr, to })?;
        self.words.push(0).unwrap();
        Ok(())
    }

    /// The words, with each jump over the distance to its label. It takes no memory. A jump
    /// to a label without a place is the fault, the first such jump; else the first jump that is
    /// too far from its label.
    pub fn close(self) -> Result<Vec<u32>, CloseFault>
        ensures closed { MatchResult result (λ words. closed_of self ≡ Ok words.items) (λ fault. closed_of self ≡ Err fault) }
        ensures resolved { IfOk result (λ words. LabelsResolved self words.items) }
    {
        let CodeBuf {
            mut words,
            uses,
            places,
        } = self;
        if let Some(label) = unbound_label(&places, &uses) {
            return Err(CloseFault::Unbound(label));
        }
        if let Some(label) = far_label(&places, &uses) {
            return Err(CloseFault::Far(label));
        }
        resolve(&mut words, &places, &uses);
        Ok(words)
    }
}
