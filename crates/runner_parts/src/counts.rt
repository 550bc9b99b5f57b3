//! The counts of a run.

ghost use Rattle.std.specs.Prelude.{◌≡◌, ◌+◌, ◌<◌, ◌≤◌, ◌==◌, ◌^◌};
ghost use Rattle.run_model.specs.OwnMoves.{stays_behind};
ghost use Rattle.runner_parts.specs.Counts.{AreBelow, no_counts, one_move, more_moves, one_arrival, one_done, many_done, one_restart, one_hint, one_stall, one_read, most_regions};

use std::marker::Model;

/// The counts over a run, and those since the last restart. None is above the moves.
#[derive(Drop)]
pub struct Counts {
    moves: u64,
    own_done: u64,
    stalls: u64,
    restarts: u64,
    matched: u64,
    hints: u64,
    regions_most: u64,
    own_since: u64,
    shadow_since: u64,
}

impl Model for Counts {
    ghost use Rattle.runner_parts.specs.Counts.{Counted};
    ghost use Rattle.runner_parts.specs.Counters.{counted_of, AreSound};

    ghost Value = { Counted };

    ghost view = { counted_of };

    ghost invariant = { AreSound };
}

impl Counts {
    /// Before the first move.
    pub fn new() -> Counts
        ensures { result ≡ no_counts }
    {
        Counts {
            moves: 0,
            own_done: 0,
            stalls: 0,
            restarts: 0,
            matched: 0,
            hints: 0,
            regions_most: 0,
            own_since: 0,
            shadow_since: 0,
        }
    }

    /// How many moves were made.
    pub fn moves(&self) -> u64
        ensures { result ≡ self.now.moves }
    {
        self.moves
    }

    /// A move begins: no other count has come to it.
    pub fn begin(&mut self)
        requires { self.old.moves < 2 ^ 63 }
        ensures value { self.new ≡ one_move self.old }
        ensures below { AreBelow self.new }
    {
        self.moves += 1;
    }

    /// So many moves in which nothing else is counted.
    pub fn pass(&mut self, moves: u64)
        requires { self.old.moves + moves ≤ 2 ^ 63 }
        ensures { self.new ≡ more_moves moves self.old }
    {
        self.moves += moves;
    }

    /// The shadow arrives at a block.
    pub fn arrive(&mut self)
        requires { self.old.shadow_since < self.old.moves }
        ensures { self.new ≡ one_arrival self.old }
    {
        self.shadow_since += 1;
    }

    /// The own hart completes an instruction.
    pub fn complete(&mut self)
        requires few { self.old.own_done < self.old.moves }
        requires since { self.old.own_since < self.old.moves }
        ensures { self.new ≡ one_done self.old }
    {
        self.own_done += 1;
        self.own_since += 1;
    }

    /// The own hart completes so many instructions, each in a move.
    pub fn complete_many(&mut self, words: u64)
        requires { self.old.moves + words ≤ 2 ^ 63 }
        ensures { self.new ≡ many_done words self.old }
    {
        self.moves += words;
        self.own_done += words;
        self.own_since += words;
    }

    /// Whether the own hart has completed no more instructions since the restart than the shadow.
    pub fn stays_behind(&self) -> bool
        ensures { result ≡ stays_behind self.now.restarts self.now.own_since self.now.shadow_since }
    {
        self.restarts == 0 || self.own_since <= self.shadow_since
    }

    /// Whether the shadow was never restarted.
    pub fn never_restarted(&self) -> bool
        ensures { result ≡ (self.now.restarts == 0) }
    {
        self.restarts == 0
    }

    /// The shadow is restarted.
    pub fn restart(&mut self)
        requires { AreBelow self.old }
        ensures { self.new ≡ one_restart self.old }
    {
        self.restarts += 1;
        self.own_since = 0;
        self.shadow_since = 0;
    }

    /// The shadow gives a hint.
    pub fn hint(&mut self)
        requires { self.old.hints < self.old.moves }
        ensures { self.new ≡ one_hint self.old }
    {
        self.hints += 1;
    }

    /// The own hart waits for a block.
    pub fn stall(&mut self)
        requires { self.old.stalls < self.old.moves }
        ensures { self.new ≡ one_stall self.old }
    {
        self.stalls += 1;
    }

    /// A read is performed, for which the shadow was restarted or not.
    pub fn read(&mut self, asked: bool)
        requires { self.old.matched < self.old.moves }
        ensures { self.new ≡ one_read asked self.old }
    {
        if !asked {
            self.matched += 1;
        }
    }

    /// So many regions are in use.
    pub fn use_regions(&mut self, used: u64)
        ensures { self.new ≡ most_regions used self.old }
    {
        self.regions_most = self.regions_most.max(used);
    }

    /// How many instructions the own hart has completed.
    pub fn own_done(&self) -> u64
        ensures { result ≡ self.now.own_done }
    {
        self.own_done
    }

    /// How often the own hart came to wait.
    pub fn stalls(&self) -> u64
        ensures { result ≡ self.now.stalls }
    {
        self.stalls
    }

    /// How often the shadow was restarted.
    pub fn restarts(&self) -> u64
        ensures { result ≡ self.now.restarts }
    {
        self.restarts
    }

    /// How many reads were performed without a restart.
    pub fn matched(&self) -> u64
        ensures { result ≡ self.now.matched }
    {
        self.matched
    }

    /// How many hints the shadow gave.
    pub fn hints(&self) -> u64
        ensures { result ≡ self.now.hints }
    {
        self.hints
    }

    /// The most regions that were in use after a word of the shadow.
    pub fn regions_most(&self) -> u64
        ensures { result ≡ self.now.regions_most }
    {
        self.regions_most
    }

    /// How many instructions the own hart has completed since the last restart.
    pub fn own_since(&self) -> u64
        ensures { result ≡ self.now.own_since }
    {
        self.own_since
    }

    /// How many blocks the shadow has arrived at since then.
    pub fn shadow_since(&self) -> u64
        ensures { result ≡ self.now.shadow_since }
    {
        self.shadow_since
    }
}
