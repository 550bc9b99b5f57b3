//! The commands.

ghost use Rattle.std.specs.Prelude.{◌≡◌};
ghost use Rattle.command_words.specs.Settings.{command_named, settings, setting_named, is_single};

use crate::setting::Setting;

/// What is to be done.
#[derive(Clone, Copy, Debug, PartialEq, Eq)]
pub enum Command {
    /// `plain`: run an image by itself.
    Plain,
    /// `rewrite`: put the rewritten file of an image.
    Rewrite,
    /// `run`: run the rewritten program of an image with its shadow.
    Run,
    /// `trace`: as `run`, with a line for each thing that happens.
    Trace,
    /// `demo`: make an image, and rewrite and run it.
    Demo,
    /// `replay`: feed the reads of a trace to a cache.
    Replay,
    /// `plan`: find the fewest fetches for the reads of a trace.
    Plan,
}

impl Command {
    /// The command with a name.
    #[tactic(auto, unfolding(crate::specs::Settings::command_named))]
    pub fn named(word: &str) -> Option<Command>
        ensures { result ≡ command_named word.now }
    {
        match word {
            "plain" => Some(Command::Plain),
            "rewrite" => Some(Command::Rewrite),
            "run" => Some(Command::Run),
            "trace" => Some(Command::Trace),
            "demo" => Some(Command::Demo),
            "replay" => Some(Command::Replay),
            "plan" => Some(Command::Plan),
            _ => None,
        }
    }

    /// Its options.
    pub fn settings(self) -> &'static [Setting]
        ensures { result.now ≡ settings self }
    {
        match self {
            Command::Plain => &[Setting::Turns, Setting::Layout],
            Command::Rewrite => &[Setting::Regions, Setting::Layout],
            Command::Run => &[
                Setting::Regions,
                Setting::Pattern,
                Setting::Turns,
                Setting::Report,
                Setting::Layout,
            ],
            Command::Trace => &[
                Setting::Regions,
                Setting::Pattern,
                Setting::Turns,
                Setting::Layout,
                Setting::Uses,
            ],
            Command::Demo => &[],
            Command::Replay => &[Setting::Blocks, Setting::Depth, Setting::Every],
            Command::Plan => &[Setting::Blocks],
        }
    }

    /// Its option with a name.
    #[tactic(auto, unfolding(crate::specs::Settings::setting_named))]
    pub fn setting_named(self, word: &str) -> Option<Setting>
        ensures { result ≡ setting_named self word.now }
    {
        self.settings()
            .iter()
            .copied()
            .find(|setting| setting.name() == word)
    }

    /// Whether it takes one word and no more beside its options.
    pub fn is_single(self) -> bool
        ensures { result ≡ is_single self }
    {
        match self {
            Command::Plain | Command::Run | Command::Trace => false,
            Command::Rewrite | Command::Demo | Command::Replay | Command::Plan => true,
        }
    }
}
