//! How a move begins.

ghost use Rattle.std.specs.Prelude.{◌≡◌, ◌+◌, ◌<◌, ◌≤◌, ◌^◌, ◌||◌, None, [], not, length};
ghost use Rattle.run_model.specs.Run.{World, Run};
ghost use Rattle.run_model.specs.Moves.{Moves, begun, silent, is_idle, run_from};
ghost use Rattle.runner_parts.specs.Counts.{AreBelow, one_move};
ghost use Rattle.runner_parts.specs.Idle.{AreIdle, idle_for};
ghost use Rattle.runner.specs.Shows.{Shows};

use crate::runner::Runner;
use runner_parts::runs;
use spec_base::Move;

// Whether a shadow stays where it is that moves only while the own hart waits.
fn stays(stalled: bool, running: bool) -> bool
    ensures { result ≡ (not stalled || not running) }
{
    !stalled || !running
}

impl Runner {
    // Nothing is told any more.
    pub(crate) fn fall_silent(&mut self)
        ensures shows { (w : World) (r : Run) → Shows self.old w r → Shows self.new w (silent r) }
        ensures counts { self.new.counts ≡ self.old.counts }
        ensures quiet { self.new.text ≡ 0 }
        ensures silent { self.new.notes ≡ [] }
        ensures state { self.new.state ≡ self.old.state }
        ensures cache { self.new.cache ≡ self.old.cache }
        ensures end { self.new.end ≡ self.old.end }
        ensures stalled { self.new.stalled ≡ self.old.stalled }
        ensures own { (self.new.own ≡ self.old.own) × (self.new.mem ≡ self.old.mem) }
    {
        self.notes.clear();
        self.text = 0;
    }

    // A move begins.
    pub(crate) fn begin(&mut self)
        requires { self.old.counts.moves < 2 ^ 63 }
        ensures shows { (w : World) (r : Run) → Shows self.old w r → Shows self.new w (begun r) }
        ensures counts { self.new.counts ≡ one_move self.old.counts }
        ensures below { AreBelow self.new.counts }
        ensures quiet { self.new.text ≡ 0 }
        ensures silent { self.new.notes ≡ [] }
        ensures state { self.new.state ≡ self.old.state }
        ensures cache { self.new.cache ≡ self.old.cache }
        ensures end { self.new.end ≡ self.old.end }
        ensures stalled { self.new.stalled ≡ self.old.stalled }
        ensures moves { self.new.counts.moves ≡ self.old.counts.moves + 1 }
        ensures own { (self.new.own ≡ self.old.own) × (self.new.mem ≡ self.old.mem) }
    {
        self.fall_silent();
        self.counts.begin();
    }

    // So many moves in which nothing else is counted.
    pub(crate) fn pass(&mut self, moves: u64)
        requires { self.old.counts.moves + moves ≤ 2 ^ 63 }
        ensures shows { (w : World) (r : Run) → Shows self.old w r → Shows self.new w (idle_for moves r) }
        ensures kept { (self.new.mem ≡ self.old.mem) × (self.new.counts.regions_most ≡ self.old.counts.regions_most) }
        ensures moves { self.new.counts.moves ≡ self.old.counts.moves + moves }
        ensures end { self.new.end ≡ self.old.end }
    {
        if moves != 0 {
            self.fall_silent();
            self.counts.pass(moves);
        }
    }

    /// Whether a move is idle in a run that goes on.
    pub fn rests(&self, step: Move) -> bool
        ensures { (w : World) (r : Run) → Shows self.now w r → result ≡ is_idle step r }
    {
        match step {
            Move::O => self.stalled,
            Move::S => !runs(&self.state),
            Move::T => stays(self.stalled, runs(&self.state)),
            Move::D => self.cache.is_resting(),
        }
    }

    /// So many idle moves of a run that goes on, at once.
    pub fn rest(&mut self, moves: u64)
        requires { self.old.counts.moves + moves ≤ 2 ^ 63 }
        ensures shows { (w : World) (r : Run) (ms : Moves) → Shows self.old w r → r.end ≡ None → AreIdle r ms → length ms ≡ moves → Shows self.new w (run_from w r ms) }
        ensures moves { self.new.counts.moves ≡ self.old.counts.moves + moves }
        ensures end { self.new.end ≡ self.old.end }
    {
        self.pass(moves);
    }
}
