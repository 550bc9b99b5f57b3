//! The replay.

ghost use Rattle.std.specs.Prelude.{◌≡◌, ◌+◌, ◌^◌, ◌<◌, ◌≤◌, true, false, OnOk, OnErr, IfOk};
ghost use Rattle.trace_text.specs.Ranges.{IsInRange};
ghost use Rattle.trace_replay.specs.Replays.{fresh, line_again};
ghost use Rattle.trace_replay.specs.Totals.{totals_of};

use crate::course::Course;
use crate::totals::Totals;
use spec_base::NoMemory;
use std::alloc::Global;
use std::marker::Model;
use trace_text::TraceLine;

/// A cache to which the reads and hints of a trace are fed. A contract sees its settings, its lists
/// and totals, how many lines it was fed, and whether there was no memory to follow one of them.
///
/// It holds a small key of each block that is cached or queued, each name once, and no block's bytes:
/// less than 200 bytes for each block, and less than 1,000 for each name.
#[derive(Drop)]
pub struct Replay {
    course: Course,
    lines: u64,
    failed: bool,
}

impl Model for Replay {
    ghost use Rattle.trace_replay.specs.Fed.{Fed};

    ghost Value = { Fed };

    ghost use Rattle.trace_replay.specs.Bounds.{fed_of, IsBoundedCourse};

    ghost view = { fed_of };

    ghost invariant = { IsBoundedCourse };
}

impl Replay {
    /// A cache of at most `blocks` blocks, whose queue has at most `depth`, and where a fetch takes
    /// `every` instructions of the program.
    pub fn new(alloc: Global, blocks: u32, depth: u32, every: u64) -> Result<Replay, NoMemory>
        requires blocks { 1 ≤ blocks }
        requires depth { 1 ≤ depth }
        requires every { 1 ≤ every }
        ensures { IfOk result (λ replay. replay ≡ record {
          settings = record { blocks = blocks; depth = depth; every = every };
          now = fresh;
          lines = 0;
          failed = false;
        }) }
    {
        Ok(Replay {
            course: Course::new(alloc, blocks, depth, every)?,
            lines: 0,
            failed: false,
        })
    }

    /// What it counted.
    pub fn totals(&self) -> Totals
        ensures { result ≡ totals_of self.now.now }
    {
        self.course.totals
    }

    /// Feeds a line of the trace. After `NoMemory` no line may be fed any more.
    pub fn feed(&mut self, line: &TraceLine) -> Result<(), NoMemory>
        requires alive { self.old.failed ≡ false }
        requires few { self.old.lines < 2 ^ 59 }
        requires range { IsInRange line.now.body }
        ensures fed { OnOk result (self.new ≡ record self.old { now = line_again self.old.settings self.old.now line.now; lines = self.old.lines + 1 }) }
        ensures failed { OnErr result (self.new.failed ≡ true) }
    {
        match self.course.follow(line) {
            Ok(()) => {
                self.lines += 1;
                Ok(())
            }
            Err(fault) => {
                self.failed = true;
                Err(fault)
            }
        }
    }
}
