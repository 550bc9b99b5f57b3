//! File names of 1 to 255 bytes.
ghost use Rattle.std.specs.Prelude.{◌≡◌, ◌↔◌, ◌≤◌, ◌<◌, ◌==◌, length, IsSome, IfSome};
ghost use Rattle.std.specs.Cmp.Lexicographic.{pointwise};
ghost use Rattle.std.proofs.Common.{rules};
ghost use Rattle.std.specs.Cmp.Rules.{comparing, hashing};
ghost use Rattle.std.specs.Hash as fed;

use std::hash::{Hash, Hasher};
use std::marker::Model;

/// The name of a file, kept in place. A contract sees its bytes.
#[derive(Clone, Copy, Debug)]
pub struct Name {
    bytes: [u8; 255],
    len: u8,
}

impl Model for Name {
    ghost use Rattle.std.specs.Prelude.{◌≡◌, ◌-◌, ◌≤◌, ◌<◌, ℕ, List, length, take, drop, replicate};
    ghost use Rattle.spec_base.specs.Padded.{padded, IsPadded, length-IsPadded};

    ghost Value = { List ℕ };

    ghost view = { λ a. take a.len a.bytes };

    ghost invariant = { λ a. IsPadded a.bytes a.len };

    ghost inverse = { λ bytes. record { bytes = padded bytes; len = length bytes } };

    ghost use Rattle.std.proofs.Common.{sym};

    ghost inverse_ok = { λ a h. λ i. record { bytes = (sym h.zeros) i; len = (length-IsPadded a.bytes a.len h) i } };
}

impl Name {
    /// A name of these bytes, or None where there are none or more than 255.
    pub fn new(bytes: &[u8]) -> Option<Name>
        ensures fits { IsSome result ↔ ((0 < length bytes.now) × (length bytes.now ≤ 255)) }
        ensures same { IfSome result (λ name. name ≡ bytes.now) }
    {
        if bytes.is_empty() || bytes.len() > 255 {
            return None;
        }
        let mut kept = [0; 255];
        kept[..bytes.len()].copy_from_slice(bytes);
        Some(Name {
            bytes: kept,
            len: bytes.len() as u8,
        })
    }

    /// Its bytes.
    pub fn as_bytes(&self) -> &[u8]
        ensures bytes { result.now ≡ self.now }
        ensures some { 0 < length self.now }
        ensures few { length self.now ≤ 255 }
    {
        &self.bytes[..self.len as usize]
    }
}

impl PartialEq for Name {
    ghost eq = { pointwise ◌==◌ };

    ghost laws = { Prim.search (comparing, rules) };

    fn eq(&self, other: &Name) -> bool {
        self.as_bytes() == other.as_bytes()
    }
}

impl Eq for Name {
    ghost laws = { Prim.search (comparing, rules) };
}

impl Hash for Name {
    ghost hash_input = { fed.slice fed.u8 };

    ghost respects_eq = { Prim.search (hashing, rules) };

    fn hash<H: Hasher>(&self, state: &mut H) {
        self.as_bytes().hash(state);
    }
}
