//! Why a shadow is parked.

ghost use Rattle.std.specs.Prelude.{◌≡◌};
ghost use Rattle.spec_base.specs.Park.{park_number, park_with};

/// Why a shadow waits for the next restart.
#[derive(Clone, Copy, Debug, PartialEq, Eq)]
pub enum Park {
    /// It assumed that the program exits.
    Exit,
    /// The program would trap there.
    Fault,
    /// A store needs a new region, and all regions are in use.
    Regions,
    /// The hint log is full.
    LogFull,
    /// The store failed in a look that the shadow asked for.
    Store,
}

impl Park {
    /// The cause with this number, which stands in HPARK words.
    pub fn with_number(number: u32) -> Option<Self>
        ensures { result ≡ park_with number }
    {
        match number {
            1 => Some(Park::Exit),
            2 => Some(Park::Fault),
            3 => Some(Park::Regions),
            4 => Some(Park::LogFull),
            5 => Some(Park::Store),
            _ => None,
        }
    }

    /// The number of this cause in HPARK words.
    pub fn number(self) -> u32
        ensures { result ≡ park_number self }
    {
        match self {
            Park::Exit => 1,
            Park::Fault => 2,
            Park::Regions => 3,
            Park::LogFull => 4,
            Park::Store => 5,
        }
    }
}
