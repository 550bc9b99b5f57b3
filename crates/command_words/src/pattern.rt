//! Patterns of moves.

ghost use Rattle.std.specs.Prelude.{◌≡◌, IfOk, MatchOption, None};
ghost use Rattle.command_words.specs.Values.{taken_if, read_all, read_byte, move_of, with_digit, with_move, whole_items, pattern_in};

use spec_base::{List, Move, NoMemory};
use std::alloc::Global;

/// The most items of a pattern.
const MAX_ITEMS: usize = 65_536;

/// The highest count of an item.
const MAX_COUNT: u64 = 1_000_000;

/// The items of a pattern that were read: those with a whole count, and the last one, whose count
/// is 0 while it has no digit.
#[derive(Drop)]
pub struct Items {
    done: List<(Move, u32)>,
    current: Move,
    count: u32,
}

// The move with this letter.
#[tactic(auto, unfolding(crate::specs::Values::move_of))]
fn move_of(letter: u8) -> Option<Move>
    ensures { result ≡ move_of letter }
{
    match letter {
        b'O' => Some(Move::O),
        b'S' => Some(Move::S),
        b'T' => Some(Move::T),
        b'D' => Some(Move::D),
        _ => None,
    }
}

impl Items {
    // Goes on with a digit of the last item's count. It is false where a 0 stands first, or the
    // count is too high.
    fn add_digit(&mut self, digit: u8) -> bool
        ensures { taken_if result self.new ≡ with_digit self.old digit }
    {
        let count = 10 * u64::from(self.count) + u64::from(digit);
        if count == 0 || count > MAX_COUNT {
            return false;
        }
        self.count = count as u32;
        true
    }

    // Begins an item. It is false where the one before has no count.
    fn begin(&mut self, next: Move) -> Result<bool, NoMemory>
        ensures { IfOk result (λ fits. taken_if fits self.new ≡ with_move self.old next) }
    {
        if self.count == 0 {
            return Ok(false);
        }
        self.done.items.push((self.current, self.count))?;
        self.current = next;
        self.count = 0;
        Ok(true)
    }

    // Goes on with a byte. It is false where no pattern goes on so.
    #[tactic(auto, unfolding(crate::specs::Values::read_byte))]
    fn read_byte(&mut self, byte: u8) -> Result<bool, NoMemory>
        ensures { IfOk result (λ fits. taken_if fits self.new ≡ read_byte self.old byte) }
    {
        if byte.is_ascii_digit() {
            return Ok(self.add_digit(byte - b'0'));
        }
        match move_of(byte) {
            Some(next) => self.begin(next),
            None => Ok(false),
        }
    }

    // Goes on with bytes, one after the other. It is false where no pattern goes on so.
    fn read_all(&mut self, bytes: &[u8]) -> Result<bool, NoMemory>
        ensures { IfOk result (λ fits. taken_if fits self.new ≡ read_all read_byte self.old bytes.now) }
    {
        for byte in bytes {
            if !self.read_byte(*byte)? {
                return Ok(false);
            }
        }
        Ok(true)
    }

    // All items, if the last one has a count.
    fn finish(mut self) -> Result<Option<List<(Move, u32)>>, NoMemory>
        ensures { IfOk result (λ items. items ≡ whole_items self) }
    {
        if self.count == 0 {
            return Ok(None);
        }
        self.done.items.push((self.current, self.count))?;
        Ok(Some(self.done))
    }
}

/// The pattern of 1 to 65,536 items that a word writes, or None. Each item is a letter `O`, `S`,
/// `T` or `D` and a count of 1 to 1,000,000 without a leading zero.
#[tactic(auto, unfolding(crate::specs::Values::pattern_in))]
pub fn read_pattern(alloc: Global, word: &str) -> Result<Option<List<(Move, u32)>>, NoMemory>
    ensures { IfOk result (λ pattern. pattern ≡ pattern_in word.now) }
{
    let [letter, bytes @ ..] = word.as_bytes() else {
        return Ok(None);
    };
    let Some(first) = move_of(*letter) else {
        return Ok(None);
    };
    let mut items = Items {
        done: List {
            items: Vec::new(alloc),
        },
        current: first,
        count: 0,
    };
    if !items.read_all(bytes)? {
        return Ok(None);
    }
    let Some(pattern) = items.finish()? else {
        return Ok(None);
    };
    if pattern.items.len() > MAX_ITEMS {
        return Ok(None);
    }
    Ok(Some(pattern))
}
