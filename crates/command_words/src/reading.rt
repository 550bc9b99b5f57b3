//! The words of a command line, one after another.

ghost use Rattle.std.specs.Prelude.{◌≡◌, IfOk, MatchOption, true, false, map, string_bytes};
ghost use Rattle.std.specs.List.{list_any, before_first, after_first};
ghost use Rattle.command_words.specs.Values.{read_all, taken_if};
ghost use Rattle.command_words.specs.CommandLine.{is_equals, begins_with_dash, is_complete, with_setting, with_name, read_option, read_open, read_word, beginning};

use crate::arguments::Arguments;
use crate::command::Command;
use crate::options::Chosen;
use crate::setting::Setting;
use spec_base::NoMemory;
use std::alloc::Global;

/// What the next word may be.
#[derive(Clone, Copy)]
pub enum Stage {
    /// An option or an argument.
    Open,
    /// The value of this option.
    Awaits(Setting),
    /// An argument.
    Closed,
}

/// What was read so far.
#[derive(Drop)]
pub struct Reading {
    pub stage: Stage,
    pub chosen: Chosen,
    pub arguments: Arguments,
}

fn begins_with_dash(word: &str) -> bool
    ensures { result ≡ begins_with_dash word.now }
{
    match word.as_bytes() {
        [] => false,
        [byte, ..] => *byte == b'-',
    }
}

// The parts of a word before and behind its first `=`, if it has one.
fn split_at_equals(word: &str) -> Option<(&str, &str)>
    ensures { MatchOption result
        (list_any is_equals word.now ≡ false)
        (λ parts. (list_any is_equals word.now ≡ true)
        × (parts.0.now ≡ before_first is_equals word.now)
        × (parts.1.now ≡ after_first is_equals word.now)) }
{
    word.split_once('=')
}

impl Stage {
    /// Whether no option waits for its value.
    pub fn is_complete(self) -> bool
        ensures { result ≡ is_complete self }
    {
        !matches!(self, Stage::Awaits(_))
    }
}

impl Reading {
    /// Nothing was read.
    pub fn new(alloc: Global) -> Reading
        ensures { result ≡ beginning }
    {
        Reading {
            stage: Stage::Open,
            chosen: Chosen::new(),
            arguments: Arguments::new(alloc),
        }
    }

    // Takes an option with its value.
    fn set(&mut self, alloc: Global, setting: Setting, value: &str) -> Result<bool, NoMemory>
        ensures { IfOk result (λ fits. taken_if fits self.new ≡ with_setting self.old value.now setting) }
    {
        let fits = self.chosen.set(alloc, setting, value)?;
        self.stage = Stage::Open;
        Ok(fits)
    }

    // Takes an option that stands alone.
    fn set_alone(&mut self, setting: Setting) -> bool
        ensures { taken_if result self.new ≡ with_name self.old setting }
    {
        if setting.has_value() {
            self.stage = Stage::Awaits(setting);
            true
        } else {
            self.chosen.set_flag(setting)
        }
    }

    // Takes a word of the form `--name=value` or `--name`.
    #[tactic(auto, unfolding(crate::specs::CommandLine::read_option))]
    fn read_option(&mut self, alloc: Global, command: Command, word: &str) -> Result<bool, NoMemory>
        ensures { IfOk result (λ fits. taken_if fits self.new ≡ read_option command self.old word.now) }
    {
        match split_at_equals(word) {
            Some((name, value)) => match command.setting_named(name) {
                Some(setting) => self.set(alloc, setting, value),
                None => Ok(false),
            },
            None => match command.setting_named(word) {
                Some(setting) => Ok(self.set_alone(setting)),
                None => Ok(false),
            },
        }
    }

    // Takes a word where options may stand.
    fn read_open(&mut self, alloc: Global, command: Command, word: &str) -> Result<bool, NoMemory>
        ensures { IfOk result (λ fits. taken_if fits self.new ≡ read_open command self.old word.now) }
    {
        if !begins_with_dash(word) {
            self.arguments.push(alloc, word)?;
            return Ok(true);
        }
        if word == "--" {
            self.stage = Stage::Closed;
            return Ok(true);
        }
        self.read_option(alloc, command, word)
    }

    /// Takes the next word. It is false where no command line goes on so.
    #[tactic(auto, unfolding(crate::specs::CommandLine::read_word))]
    pub fn read_word(
        &mut self,
        alloc: Global,
        command: Command,
        word: &str,
    ) -> Result<bool, NoMemory>
        ensures { IfOk result (λ fits. taken_if fits self.new ≡ read_word command self.old word.now) }
    {
        match self.stage {
            Stage::Open => self.read_open(alloc, command, word),
            Stage::Awaits(setting) => {
                if begins_with_dash(word) {
                    return Ok(false);
                }
                self.set(alloc, setting, word)
            }
            Stage::Closed => {
                self.arguments.push(alloc, word)?;
                Ok(true)
            }
        }
    }

    /// Takes all words in turn. It is false where no command line goes on so.
    pub fn read_all(
        &mut self,
        alloc: Global,
        command: Command,
        words: &[String],
    ) -> Result<bool, NoMemory>
        ensures { IfOk result (λ fits. taken_if fits self.new ≡ read_all (read_word command) self.old (map string_bytes words.now)) }
    {
        for word in words {
            if !self.read_word(alloc, command, word)? {
                return Ok(false);
            }
        }
        Ok(true)
    }
}
