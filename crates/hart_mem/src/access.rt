//! Loads and stores: how wide they are, and why one is refused.

ghost use Rattle.std.specs.Prelude.{◌≡◌};
ghost use Rattle.hart_mem.specs.Access.{IsWidth, width_bytes};

/// How many bytes a load or a store takes.
#[derive(Clone, Copy, Debug, PartialEq, Eq)]
pub enum Width {
    One,
    Two,
    Four,
    Eight,
}

/// Why a load is refused.
#[derive(Clone, Copy, Debug, PartialEq, Eq)]
pub enum Access {
    /// The address is no multiple of the width.
    Unaligned,
    /// A byte isn't one that the view loads.
    Out,
}

/// Why a store is refused.
#[derive(Clone, Copy, Debug, PartialEq, Eq)]
pub enum StoreFault {
    /// The address is no multiple of the width.
    Unaligned,
    /// A byte isn't one that the view stores.
    Out,
    /// The page of the program range has no frame yet, and none is spare.
    NoMemory,
}

impl Width {
    /// The width in bytes.
    pub fn bytes(self) -> usize
        ensures value { result ≡ width_bytes self }
        ensures width { IsWidth result }
    {
        match self {
            Width::One => 1,
            Width::Two => 2,
            Width::Four => 4,
            Width::Eight => 8,
        }
    }
}
