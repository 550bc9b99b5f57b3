//! The words that a command acts on.

ghost use Rattle.std.specs.Prelude.{◌≡◌, [], ◌∷◌, ◌++◌, OnOk, OnErr, map, string_bytes};

use spec_base::NoMemory;
use std::alloc::Global;
use std::marker::Model;

/// Words in order. A contract sees the bytes of each.
#[derive(Debug, Drop)]
pub struct Arguments {
    words: Vec<String>,
}

impl Model for Arguments {
    ghost use Rattle.std.specs.Prelude.{ℕ, List, map, string_bytes};

    ghost Value = { List (List ℕ) };

    ghost view = { λ a. map string_bytes a.words.items };
}

impl Arguments {
    /// No words.
    pub fn new(alloc: Global) -> Arguments
        ensures { result ≡ [] }
    {
        Arguments {
            words: Vec::new(alloc),
        }
    }

    /// Puts a word behind the others. After `NoMemory` the words are as before.
    pub fn push(&mut self, alloc: Global, word: &str) -> Result<(), NoMemory>
        ensures ok { OnOk result (self.new ≡ self.old ++ word.now ∷ []) }
        ensures err { OnErr result (self.new ≡ self.old) }
    {
        let word = String::from_str(alloc, word)?;
        self.words.push(word)?;
        Ok(())
    }

    /// The words.
    pub fn as_slice(&self) -> &[String]
        ensures { map string_bytes result.now ≡ self.now }
    {
        &self.words
    }
}
