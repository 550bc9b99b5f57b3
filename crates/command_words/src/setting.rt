//! The options' names.

ghost use Rattle.std.specs.Prelude.{◌≡◌};
ghost use Rattle.command_words.specs.Settings.{setting_name, has_value};

/// An option.
#[derive(Clone, Copy)]
pub enum Setting {
    Turns,
    Regions,
    Pattern,
    Layout,
    Report,
    Uses,
    Blocks,
    Depth,
    Every,
}

impl Setting {
    /// Its name.
    pub fn name(self) -> &'static str
        ensures { result.now ≡ setting_name self }
    {
        match self {
            Setting::Turns => "--turns",
            Setting::Regions => "--regions",
            Setting::Pattern => "--pattern",
            Setting::Layout => "--layout",
            Setting::Report => "--report",
            Setting::Uses => "--uses",
            Setting::Blocks => "--blocks",
            Setting::Depth => "--depth",
            Setting::Every => "--every",
        }
    }

    /// Whether it has a value.
    pub fn has_value(self) -> bool
        ensures { result ≡ has_value self }
    {
        !matches!(self, Setting::Report | Setting::Uses)
    }
}
