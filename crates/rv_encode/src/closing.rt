//! The jumps of a buffer, and the words that they get once each label has its place.

ghost use Rattle.std.specs.Prelude.{◌≡◌, ◌+◌, ◌*◌, ◌^◌, ◌<◌, ◌≤◌, Some, None, if◌then◌else◌, length, EachIndex, is_some, slice_get, IsTrue};
ghost use Rattle.std.specs.List.{All};
ghost use Rattle.rv_encode.specs.Code.{IsJump, reach_of, reaches, distance, with_distance, place_of, target_of, first_unbound, first_far, resolved};
ghost use Rattle.rv_decode.specs.Encoding.{word_of};

use crate::encoding::encode;
use crate::label::Label;
use rv_decode::Instr;

/// A jump whose word is to come: its index, the branch or JAL, and the label that it goes to.
#[derive(Clone, Copy, Debug, PartialEq, Eq)]
pub struct Use {
    pub at: usize,
    pub instr: Instr,
    pub to: Label,
}

/// Why code can't be closed.
#[derive(Clone, Copy, Debug, PartialEq, Eq)]
pub enum CloseFault {
    /// A jump goes to this label, which has no place.
    Unbound(Label),
    /// A jump goes to this label, and can't reach it: a branch reaches from -4096 to 4094 bytes,
    /// a JAL from -2^20 to 2^20 - 2.
    Far(Label),
}

/// The label of the first jump whose label has no place.
pub fn unbound_label(places: &[Option<usize>], uses: &[Use]) -> Option<Label>
    requires { All (λ u. u.to < length places.now) uses.now }
    ensures { result ≡ first_unbound places.now uses.now }
{
    for jump in uses {
        if places[jump.to.number()].is_none() {
            return Some(jump.to);
        }
    }
    None
}

/// How many words a jump reaches back.
pub fn reach(instr: &Instr) -> usize
    ensures reach { result ≡ reach_of instr.now }
    ensures most { result ≤ 262144 }
{
    match *instr {
        Instr::Branch { .. } => 1024,
        Instr::Jal { .. } => 262_144,
        _ => 0,
    }
}

/// The distance in bytes, where the jump reaches.
pub fn reached(instr: &Instr, from: usize, to: usize) -> Option<i64>
    ensures { result ≡ (if reaches instr.now from to then Some (distance from to) else None) }
{
    let reach = reach(instr);
    if from <= to {
        let words = to - from;
        if words < reach {
            Some(4 * words as i64)
        } else {
            None
        }
    } else {
        let words = from - to;
        if words <= reach {
            Some(-4 * words as i64)
        } else {
            None
        }
    }
}

/// The word of a jump over so many bytes.
pub fn jump_word(instr: &Instr, from: usize, to: usize) -> u32
    requires jump { IsJump instr.now }
    requires reaches { IsTrue (reaches instr.now from to) }
    ensures { result ≡ word_of (with_distance instr.now (distance from to)) }
{
    let imm = reached(instr, from, to).unwrap();
    match *instr {
        Instr::Branch { op, rs1, rs2, .. } => encode(&Instr::Branch { op, rs1, rs2, imm }),
        Instr::Jal { rd, .. } => encode(&Instr::Jal { rd, imm }),
        _ => unreachable!(),
    }
}

/// The label of the first jump that doesn't reach its label.
pub fn far_label(places: &[Option<usize>], uses: &[Use]) -> Option<Label>
    requires labels { All (λ u. u.to < length places.now) uses.now }
    requires bound { first_unbound places.now uses.now ≡ None }
    ensures { result ≡ first_far places.now uses.now }
{
    for jump in uses {
        let target = places[jump.to.number()].unwrap_or(0);
        if reached(&jump.instr, jump.at, target).is_none() {
            return Some(jump.to);
        }
    }
    None
}

/// Puts each jump's word in its place.
pub fn resolve(words: &mut [u32], places: &[Option<usize>], uses: &[Use])
    requires jumps { All (λ u. IsJump u.instr) uses.now }
    requires within { All (λ u. u.at < length words.old) uses.now }
    requires labels { All (λ u. u.to < length places.now) uses.now }
    requires near { first_far places.now uses.now ≡ None }
    ensures { words.new ≡ resolved places.now uses.now words.old }
{
    for jump in uses {
        let target = places[jump.to.number()].unwrap_or(0);
        words[jump.at] = jump_word(&jump.instr, jump.at, target);
    }
}
