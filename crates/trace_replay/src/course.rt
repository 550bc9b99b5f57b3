//! The course of a replay: needs, hints, and fetches that finish as time passes.

ghost use Rattle.std.specs.Prelude.{◌≡◌, ◌+◌, ◌^◌, ◌<◌, ◌≤◌, OnOk, IfOk};
ghost use Rattle.program_model.specs.Cache.{blocks_of, all_hinted};
ghost use Rattle.trace_text.specs.Ranges.{IsReadInRange, IsInRange};
ghost use Rattle.trace_replay.specs.Replays.{fresh, finishes, needed, read_again, caught_up, line_again, with_cache};
ghost use Rattle.trace_replay.specs.Courses.{settings, shown};

use crate::block_lists::BlockLists;
use crate::totals::Totals;
use cache_queue::block_numbers;
use spec_base::{BlockSpot, NoMemory, Note, ReadSpot};
use std::alloc::Global;
use trace_text::{TraceBody, TraceLine};

/// The lists of a cache, the ticks of its clock, each of `every` instructions of the program, and the
/// totals.
#[derive(Drop)]
pub(crate) struct Course {
    pub lists: BlockLists,
    pub every: u64,
    pub clock: u64,
    pub totals: Totals,
}

impl Course {
    /// Nothing yet.
    pub fn new(alloc: Global, blocks: u32, depth: u32, every: u64) -> Result<Course, NoMemory>
        requires blocks { 1 ≤ blocks }
        requires depth { 1 ≤ depth }
        ensures shown { IfOk result (λ course. shown course ≡ fresh) }
        ensures settings { IfOk result (λ course. settings course ≡ record { blocks = blocks; depth = depth; every = every }) }
    {
        Ok(Course {
            lists: BlockLists::new(alloc, blocks, depth)?,
            every,
            clock: 0,
            totals: Totals {
                reads: 0,
                needs: 0,
                stalls: 0,
                fetches: 0,
            },
        })
    }

    // Finishes at most so many fetches, while something is in flight.
    fn finish(&mut self, most: u64) -> Result<(), NoMemory>
        requires { (finishes (settings self.old) most (shown self.old)).fetches < 2 ^ 64 }
        ensures shown { OnOk result (shown self.new ≡ finishes (settings self.old) most (shown self.old)) }
        ensures settings { OnOk result (settings self.new ≡ settings self.old) }
    {
        for _ in 0..most {
            let any = self.lists.finish()?;
            if !any {
                return Ok(());
            }
            self.totals.fetches += 1;
        }
        Ok(())
    }

    // Lets the time pass until the program has completed so many instructions.
    fn catch_up(&mut self, own: u64) -> Result<(), NoMemory>
        requires every { 1 ≤ self.old.every }
        requires fits { (caught_up (settings self.old) (shown self.old) own).fetches < 2 ^ 64 }
        ensures shown { OnOk result (shown self.new ≡ caught_up (settings self.old) (shown self.old) own) }
        ensures settings { OnOk result (settings self.new ≡ settings self.old) }
    {
        let goal = own / self.every;
        let clock = self.clock;
        self.finish(goal.saturating_sub(clock))?;
        self.clock = clock.max(goal);
        Ok(())
    }

    // Needs a block, which is fetched at once if it isn't cached.
    fn need(&mut self, spot: &BlockSpot) -> Result<(), NoMemory>
        requires needs { (needed (settings self.old) (shown self.old) spot.now).needs < 2 ^ 64 }
        requires stalls { (needed (settings self.old) (shown self.old) spot.now).stalls < 2 ^ 64 }
        requires fetches { (needed (settings self.old) (shown self.old) spot.now).fetches < 2 ^ 64 }
        ensures shown { OnOk result (shown self.new ≡ needed (settings self.old) (shown self.old) spot.now) }
        ensures settings { OnOk result (settings self.new ≡ settings self.old) }
    {
        self.totals.needs += 1;
        let cached = self.lists.need(spot)?;
        if !cached {
            self.totals.stalls += 1;
            self.totals.fetches += 1;
        }
        Ok(())
    }

    // Needs the blocks of a read, ascending.
    fn read(&mut self, read: &ReadSpot) -> Result<(), NoMemory>
        requires range { IsReadInRange read.now }
        requires needs { (read_again (settings self.old) (shown self.old) read.now).needs < 2 ^ 64 }
        requires stalls { (read_again (settings self.old) (shown self.old) read.now).stalls < 2 ^ 64 }
        requires fetches { (read_again (settings self.old) (shown self.old) read.now).fetches < 2 ^ 64 }
        requires reads { self.old.totals.reads + 1 < 2 ^ 64 }
        ensures shown { OnOk result (shown self.new ≡ read_again (settings self.old) (shown self.old) read.now) }
        ensures settings { OnOk result (settings self.new ≡ settings self.old) }
    {
        self.totals.reads += 1;
        let blocks = block_numbers(read);
        for block in blocks.start..blocks.end {
            self.need(&BlockSpot {
                name: read.name,
                block,
            })?;
        }
        Ok(())
    }

    // Hints the blocks of a read, ascending.
    fn hint(&mut self, read: &ReadSpot) -> Result<(), NoMemory>
        requires { IsReadInRange read.now }
        ensures shown { OnOk result (shown self.new ≡ with_cache (shown self.old) (all_hinted self.old.lists.depth self.old.lists.cache (blocks_of read.now))) }
        ensures settings { OnOk result (settings self.new ≡ settings self.old) }
    {
        let blocks = block_numbers(read);
        for block in blocks.start..blocks.end {
            self.lists.hint(&BlockSpot {
                name: read.name,
                block,
            })?;
        }
        Ok(())
    }

    /// Follows a line.
    pub fn follow(&mut self, line: &TraceLine) -> Result<(), NoMemory>
        requires every { 1 ≤ self.old.every }
        requires range { IsInRange line.now.body }
        requires needs { (line_again (settings self.old) (shown self.old) line.now).needs < 2 ^ 64 }
        requires stalls { (line_again (settings self.old) (shown self.old) line.now).stalls < 2 ^ 64 }
        requires fetches { (line_again (settings self.old) (shown self.old) line.now).fetches < 2 ^ 64 }
        requires reads { self.old.totals.reads + 1 < 2 ^ 64 }
        ensures shown { OnOk result (shown self.new ≡ line_again (settings self.old) (shown self.old) line.now) }
        ensures settings { OnOk result (settings self.new ≡ settings self.old) }
    {
        self.catch_up(line.own)?;
        match &line.body {
            TraceBody::Note(Note::Match(spot)) => self.read(spot),
            TraceBody::Note(Note::Restart(spot)) => self.read(spot),
            TraceBody::Note(Note::Hint(spot)) => self.hint(spot),
            _ => Ok(()),
        }
    }
}
