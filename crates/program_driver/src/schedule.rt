//! The moves of a repeated pattern.

ghost use Rattle.std.specs.Prelude.{◌≡◌, ◌≤◌, ◌<◌, ◌+◌, ◌*◌, ◌^◌, [], ◌∷◌, ◌++◌, length, replicate, MatchOption, IfSome};
ghost use Rattle.command_words.specs.Limits.{IsPattern};
ghost use Rattle.run_model.specs.Patterns.{one_round, pattern_moves};
ghost use Rattle.program_driver.specs.Rounds.{items_or, items_from, own_of, owns, Passes};

use spec_base::{List, Move};
use std::marker::Model;

/// The moves of a pattern, repeated until so many were made. It takes no memory.
///
/// A contract sees it as the list of the moves that are still to come.
#[derive(Drop)]
pub struct Schedule<'a> {
    pattern: &'a [(Move, u32)],
    // How many moves a round has, and how many of these are the own hart's.
    moves: u64,
    own: u64,
    // What comes next: so many moves of the own hart, and the items left of a round.
    first: u64,
    rest: &'a [(Move, u32)],
    turns: u64,
}

impl<'a> Model for Schedule<'a> {
    ghost use Rattle.std.specs.Prelude.{List, ◌∷◌};
    ghost use Rattle.spec_base.specs.declared.note.Move.{Move};
    ghost use Rattle.spec_base.specs.declared.note.Move.TheVariants.{O};
    ghost use Rattle.program_driver.specs.Rounds.{moves_from, IsRepeated};

    ghost Value = { List Move };

    ghost view = { λ s. moves_from s.pattern.now ((O, s.first) ∷ s.rest.now) s.turns };

    ghost invariant = { λ s. IsRepeated s.pattern.now s.rest.now s.moves s.own };
}

impl<'a> Schedule<'a> {
    /// The first `turns` moves of a repeated pattern.
    pub fn new(pattern: &'a List<(Move, u32)>, turns: u64) -> Schedule<'a>
        requires { IsPattern pattern.now }
        ensures { result ≡ pattern_moves pattern.now turns }
    {
        let (moves, own) = round_counts(&pattern.items);
        Schedule {
            pattern: &pattern.items,
            moves,
            own,
            first: 0,
            rest: &[],
            turns,
        }
    }

    // The move that comes next, and how often it is made before another. Of the own hart's it is taken
    // at most so often.
    fn next_part(&mut self, most: u64) -> Option<(Move, u64)>
        ensures moves { MatchOption result (self.old ≡ []) (λ part. self.old ≡ replicate part.1 part.0 ++ self.new) }
        ensures within { IfSome result (λ part. own_of part.0 * part.1 ≤ most) }
        ensures some { 1 ≤ most → IfSome result (λ part. 1 ≤ part.1) }
    {
        if self.turns == 0 {
            return None;
        }
        let (step, whole, rest) = next_moves(self.pattern, self.first, self.rest);
        let count = taken(step, whole, most);
        if self.turns <= count {
            let last = self.turns;
            self.turns = 0;
            return Some((step, last));
        }
        self.turns -= count;
        self.first = whole - count;
        self.rest = rest;
        Some((step, count))
    }

    /// The move that comes next, and how often it is made before the next item of the pattern.
    pub fn next_stretch(&mut self) -> Option<(Move, u64)>
        ensures moves { MatchOption result (self.old ≡ []) (λ stretch. self.old ≡ replicate stretch.1 stretch.0 ++ self.new) }
        ensures some { IfSome result (λ stretch. 1 ≤ stretch.1) }
    {
        self.next_part(u64::MAX)
    }

    /// So many of the moves that are still to come are the own hart's, or more: where a round begins, those
    /// of all whole rounds.
    pub fn own_left(&self) -> u64
        ensures { result ≤ owns self.now }
    {
        if self.first != 0 || !self.rest.is_empty() {
            return 0;
        }
        self.turns / self.moves * self.own
    }

    // How many moves are still to come.
    fn count(&self) -> u64
        ensures { result ≡ length self.now }
    {
        self.turns
    }

    // Passes whole rounds, where one begins, with at most so many moves of the own hart. Answers how many
    // of the own hart were passed.
    fn pass_rounds(&mut self, most: u64) -> u64
        ensures passes { Passes result self.old self.new }
        ensures within { result ≤ most }
    {
        if self.own == 0 || self.first != 0 || !self.rest.is_empty() {
            return 0;
        }
        let rounds = (most / self.own).min(self.turns / self.moves);
        self.turns -= rounds * self.moves;
        rounds * self.own
    }

    // Passes some moves, with at most so many of the own hart. Answers how many of the own hart were passed.
    fn pass_some(&mut self, most: u64) -> u64
        requires some { 1 ≤ most }
        requires left { most ≤ owns self.old }
        ensures passes { Passes result self.old self.new }
        ensures within { result ≤ most }
        ensures shorter { length self.new < length self.old }
    {
        let passed = self.pass_rounds(most);
        if passed != 0 {
            return passed;
        }
        match self.next_part(most) {
            Some((step, count)) => own_among(step, count),
            // Moves of the own hart are still to come.
            None => 0,
        }
    }

    /// Passes the next moves, of which so many are the own hart's. Answers how many moves those are.
    pub fn pass_own(&mut self, own: u64) -> u64
        requires { own ≤ owns self.old }
        ensures passes { Passes own self.old self.new }
        ensures count { length self.old ≡ result + length self.new }
    {
        let before = self.count();
        let mut left = own;
        while left != 0 {
            left -= self.pass_some(left);
        }
        before - self.count()
    }
}

/// How many of so many equal moves are the own hart's.
fn own_among(step: Move, count: u64) -> u64
    ensures { result ≡ own_of step * count }
{
    match step {
        Move::O => count,
        Move::S | Move::T | Move::D => 0,
    }
}

/// How many of so many equal moves are taken: all, or at most `most` of the own hart.
fn taken(step: Move, count: u64, most: u64) -> u64
    ensures some { 1 ≤ most → 1 ≤ count → 1 ≤ result }
    ensures few { result ≤ count }
    ensures within { own_of step * result ≤ most }
    ensures others { own_of step ≡ 0 → result ≡ count }
{
    match step {
        Move::O => count.min(most),
        Move::S | Move::T | Move::D => count,
    }
}

/// How many moves a round of some items has, and how many of these are the own hart's.
fn round_counts(items: &[(Move, u32)]) -> (u64, u64)
    requires { length (one_round items.now) < 2 ^ 63 }
    ensures moves { result.0 ≡ length (one_round items.now) }
    ensures own { result.1 ≡ owns (one_round items.now) }
{
    let mut moves = 0;
    let mut own = 0;
    let mut rest = items;
    while !rest.is_empty() {
        let (step, count, behind) = first_item(rest);
        moves += u64::from(count);
        own += own_among(step, u64::from(count));
        rest = behind;
    }
    (moves, own)
}

/// The first of some items, and those behind it.
fn first_item(items: &[(Move, u32)]) -> (Move, u32, &[(Move, u32)])
    requires { 1 ≤ length items.now }
    ensures { (result.0, result.1) ∷ result.2.now ≡ items.now }
{
    let (current, count) = items[0];
    (current, count, &items[1..])
}

/// The next item of a repeated pattern, of which these are still to come in a round, and those behind it.
fn next_item<'a>(
    pattern: &'a [(Move, u32)],
    rest: &'a [(Move, u32)],
) -> (Move, u32, &'a [(Move, u32)])
    requires { 1 ≤ length pattern.now }
    ensures { (result.0, result.1) ∷ result.2.now ≡ items_or pattern.now rest.now }
{
    if rest.is_empty() {
        first_item(pattern)
    } else {
        first_item(rest)
    }
}

/// As `next_item`, behind so many moves of the own hart.
fn next_moves<'a>(
    pattern: &'a [(Move, u32)],
    first: u64,
    rest: &'a [(Move, u32)],
) -> (Move, u64, &'a [(Move, u32)])
    requires { 1 ≤ length pattern.now }
    ensures { (result.0, result.1) ∷ result.2.now ≡ items_from pattern.now first rest.now }
{
    if first != 0 {
        return (Move::O, first, rest);
    }
    let (step, count, behind) = next_item(pattern, rest);
    (step, u64::from(count), behind)
}
