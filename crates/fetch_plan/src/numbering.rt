//! Blocks numbered by first appearance.

ghost use Rattle.std.specs.Prelude.{◌≡◌, ◌++◌, ◌∷◌, ◌<◌, ◌≤◌, List, [], length, OnOk, IfOk, IfErr, IfSome, None, All};
ghost use Rattle.spec_base.specs.declared.spot.BlockSpot.{BlockSpot as Spot};
ghost use Rattle.program_model.specs.Cache.{blocks_of};
ghost use Rattle.trace_text.specs.Ranges.{IsReadInRange, IsInRange};
ghost use Rattle.fetch_plan.specs.Needs.{numbered, needed_blocks, read_in, blocks_in};
ghost use Rattle.fetch_plan.specs.Numbering.{Has};

use cache_queue::block_numbers;
use indexmap::IndexSet;
use small_spots::{Names, SmallSpot};
use spec_base::{BlockSpot, NoMemory, Note, ReadSpot};
use std::alloc::Global;
use std::marker::Model;
use trace_text::{TraceBody, TraceLine};

/// Why there are no needs.
#[derive(Clone, Copy, Debug, PartialEq, Eq, Drop)]
pub enum NeedsFault {
    /// There are more than 4,000,000.
    TooMany,
    NoMemory,
}

/// How many needs there may be.
const MOST: usize = 4_000_000;

/// The needs of lines that come one after the other: equal blocks have equal numbers, from 0 by first
/// appearance. Past 4,000,000 needs no number is kept. Blocks are looked up by small keys, and each
/// name is held once.
#[derive(Drop)]
pub struct Numbering {
    names: Names,
    seen: IndexSet<SmallSpot>,
    numbers: Vec<u64>,
    full: bool,
}

impl Model for Numbering {
    ghost use Rattle.fetch_plan.specs.Numbering.{Noted};

    ghost Value = { Noted };

    ghost use Rattle.fetch_plan.specs.Fields.{noted_of, IsWithin};

    ghost view = { noted_of };

    ghost invariant = { IsWithin };
}

impl Numbering {
    /// No need.
    pub fn new(alloc: Global) -> Numbering
        ensures { Has result [] }
    {
        Numbering {
            names: Names::new(alloc),
            seen: IndexSet::new(alloc),
            numbers: Vec::new(alloc),
            full: false,
        }
    }

    // Notes the need of a block.
    fn add(&mut self, spot: BlockSpot) -> Result<(), NoMemory>
        ensures { OnOk result ((spots : List Spot) → Has self.old spots → Has self.new (spots ++ spot ∷ [])) }
    {
        if self.full {
            return Ok(());
        }
        if self.numbers.len() >= MOST {
            self.full = true;
            return Ok(());
        }
        let key = self.names.key(&spot)?;
        let Ok((number, _)) = self.seen.insert_full(key) else {
            return Err(NoMemory);
        };
        self.numbers.push(number as u64)?;
        Ok(())
    }

    // Notes the needs of the blocks of a read, ascending.
    fn add_read(&mut self, read: &ReadSpot) -> Result<(), NoMemory>
        requires { IsReadInRange read.now }
        ensures { OnOk result ((spots : List Spot) → Has self.old spots → Has self.new (spots ++ blocks_of read.now)) }
    {
        let blocks = block_numbers(read);
        for block in blocks.start..blocks.end {
            self.add(BlockSpot {
                name: read.name,
                block,
            })?;
        }
        Ok(())
    }

    /// Notes the needs of a line. After `NoMemory` the needs aren't told.
    pub fn add_line(&mut self, line: &TraceLine) -> Result<(), NoMemory>
        requires { IsInRange line.now.body }
        ensures { OnOk result ((spots : List Spot) → Has self.old spots → Has self.new (spots ++ blocks_in (read_in line.now.body))) }
    {
        match &line.body {
            TraceBody::Note(Note::Match(read)) => self.add_read(read),
            TraceBody::Note(Note::Restart(read)) => self.add_read(read),
            _ => Ok(()),
        }
    }

    // Notes the needs of lines, one after the other.
    fn add_lines(&mut self, lines: &[TraceLine]) -> Result<(), NoMemory>
        requires empty { Has self.old [] }
        requires range { All (λ line. IsInRange line.body) lines.now }
        ensures { OnOk result (Has self.new (needed_blocks lines.now)) }
    {
        for line in lines {
            self.add_line(line)?;
        }
        Ok(())
    }

    // The numbers, and whether there were more needs than may be.
    fn into_parts(self) -> (Vec<u64>, bool)
        ensures numbers { result.0.items ≡ self.numbers.numbers }
        ensures full { result.1 ≡ self.full }
    {
        (self.numbers, self.full)
    }

    /// The numbers of the needs, or None where there are more than 4,000,000.
    pub fn into_numbers(self) -> Option<Vec<u64>>
        ensures some { IfSome result (λ v. (spots : List Spot) → Has self spots → (v.items ≡ numbered spots) × (length spots ≤ 4_000_000)) }
        ensures none { result ≡ None → (spots : List Spot) → Has self spots → 4_000_000 < length spots }
    {
        let (numbers, full) = self.into_parts();
        if full { None } else { Some(numbers) }
    }
}

/// The numbers of the blocks that the lines need, in order: equal blocks have equal numbers, from 0
/// by first appearance. There are too many exactly where there are more than 4,000,000.
pub fn needs(alloc: Global, lines: &[TraceLine]) -> Result<Vec<u64>, NeedsFault>
    requires { All (λ line. IsInRange line.body) lines.now }
    ensures ok { IfOk result (λ v. v.items ≡ numbered (needed_blocks lines.now)) }
    ensures few { IfOk result (λ v. length (needed_blocks lines.now) ≤ 4_000_000) }
    ensures many { IfErr result (λ e. e ≡ NeedsFault.TooMany → 4_000_000 < length (needed_blocks lines.now)) }
{
    let mut numbering = Numbering::new(alloc);
    let noted = numbering.add_lines(lines);
    let numbers = numbering.into_numbers();
    let Ok(()) = noted else {
        return Err(NeedsFault::NoMemory);
    };
    match numbers {
        Some(numbers) => Ok(numbers),
        None => Err(NeedsFault::TooMany),
    }
}
