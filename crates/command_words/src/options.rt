//! Options, as they were chosen, and with defaults.

ghost use Rattle.std.specs.Prelude.{◌≡◌, IfOk, unwrap_or};
ghost use Rattle.command_words.specs.Values.{taken_if};
ghost use Rattle.command_words.specs.Settings.{once, with_value, with_flag, options_of, nothing_chosen, default_pattern};

use crate::number::{number, small_number, version};
use crate::pattern::read_pattern;
use crate::setting::Setting;
use spec_base::{List, MAX_REGIONS, Move, NoMemory, Version};
use std::alloc::Global;

/// The most turns of a run, and the highest `every`.
const MAX_TURNS: u64 = 1_000_000_000_000_000;

/// The most blocks of a cache, and the most fetches in its queue.
const MAX_BLOCKS: u32 = 65_536;

/// The options of a command. One that wasn't chosen, or that the command hasn't, has its default.
#[derive(Debug, Drop)]
pub struct Options {
    /// How many moves or steps are made at most; 10,000,000,000 by default.
    pub turns: u64,
    /// How many regions of 256 bytes the shadow may copy, 1 to 65,536; 4,096 by default.
    pub regions: u32,
    /// The moves of a round, each with how often it is made; `O1S600D1` by default.
    pub pattern: List<(Move, u32)>,
    /// The version of the program range; `Two` by default.
    pub layout: Version,
    /// Whether the report is asked for.
    pub report: bool,
    /// Whether the lines of uses are asked for.
    pub uses: bool,
    /// How many blocks the cache of a replay or a plan holds, 1 to 65,536; 256 by default.
    pub blocks: u32,
    /// How many fetches the queue of a replay holds, 1 to 65,536; 64 by default.
    pub depth: u32,
    /// How many instructions of the program a fetch takes in a replay, 1 to 10^15; 1 by default.
    pub every: u64,
}

/// The options that were chosen so far.
#[derive(Drop)]
pub struct Chosen {
    turns: Option<u64>,
    regions: Option<u32>,
    pattern: Option<List<(Move, u32)>>,
    layout: Option<Version>,
    report: bool,
    uses: bool,
    blocks: Option<u32>,
    depth: Option<u32>,
    every: Option<u64>,
}

// Puts a value in an empty place. It is false where the place isn't empty or there is no value.
fn put_once<T: Drop>(place: &mut Option<T>, value: Option<T>) -> bool
    ensures { taken_if result place.new ≡ once place.old value }
{
    if place.is_some() || value.is_none() {
        return false;
    }
    *place = value;
    true
}

// `O1S600D1`.
fn default_pattern(alloc: Global) -> Result<List<(Move, u32)>, NoMemory>
    ensures { IfOk result (λ pattern. pattern ≡ default_pattern) }
{
    let items = vec![in alloc; (Move::O, 1), (Move::S, 600), (Move::D, 1)]?;
    Ok(List { items })
}

// The pattern, or else `O1S600D1`.
fn pattern_or_default(
    alloc: Global,
    pattern: Option<List<(Move, u32)>>,
) -> Result<List<(Move, u32)>, NoMemory>
    ensures { IfOk result (λ moves. moves ≡ unwrap_or pattern default_pattern) }
{
    match pattern {
        Some(pattern) => Ok(pattern),
        None => default_pattern(alloc),
    }
}

impl Chosen {
    /// No option.
    pub fn new() -> Chosen
        ensures { result ≡ nothing_chosen }
    {
        Chosen {
            turns: None,
            regions: None,
            pattern: None,
            layout: None,
            report: false,
            uses: false,
            blocks: None,
            depth: None,
            every: None,
        }
    }

    /// Chooses an option with a value. It is false where the option was chosen before, or has no
    /// such value.
    #[tactic(auto, unfolding(crate::specs::Settings::with_value))]
    pub fn set(&mut self, alloc: Global, setting: Setting, value: &str) -> Result<bool, NoMemory>
        ensures { IfOk result (λ fits. taken_if fits self.new ≡ with_value self.old setting value.now) }
    {
        let fits = match setting {
            Setting::Turns => put_once(&mut self.turns, number(value, 1, MAX_TURNS)),
            Setting::Regions => put_once(&mut self.regions, small_number(value, 1, MAX_REGIONS)),
            Setting::Pattern => put_once(&mut self.pattern, read_pattern(alloc, value)?),
            Setting::Layout => put_once(&mut self.layout, version(value)),
            Setting::Blocks => put_once(&mut self.blocks, small_number(value, 1, MAX_BLOCKS)),
            Setting::Depth => put_once(&mut self.depth, small_number(value, 1, MAX_BLOCKS)),
            Setting::Every => put_once(&mut self.every, number(value, 1, MAX_TURNS)),
            Setting::Report | Setting::Uses => false,
        };
        Ok(fits)
    }

    /// Chooses an option without a value. It is false where the option was chosen before, or has
    /// a value.
    #[tactic(auto, unfolding(crate::specs::Settings::with_flag))]
    pub fn set_flag(&mut self, setting: Setting) -> bool
        ensures { taken_if result self.new ≡ with_flag self.old setting }
    {
        match setting {
            Setting::Report if !self.report => {
                self.report = true;
                true
            }
            Setting::Uses if !self.uses => {
                self.uses = true;
                true
            }
            _ => false,
        }
    }

    /// The options, each other one with its default.
    #[tactic(auto, unfolding(crate::specs::Settings::options_of))]
    pub fn options(self, alloc: Global) -> Result<Options, NoMemory>
        ensures { IfOk result (λ options. options ≡ options_of self) }
    {
        let pattern = pattern_or_default(alloc, self.pattern)?;
        Ok(Options {
            turns: self.turns.unwrap_or(10_000_000_000),
            regions: self.regions.unwrap_or(4096),
            pattern,
            layout: self.layout.unwrap_or(Version::Two),
            report: self.report,
            uses: self.uses,
            blocks: self.blocks.unwrap_or(256),
            depth: self.depth.unwrap_or(64),
            every: self.every.unwrap_or(1),
        })
    }
}
