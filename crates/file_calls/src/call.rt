//! The calls by number.

ghost use Rattle.std.specs.Prelude.{◌≡◌};
ghost use Rattle.program_model.specs.Calls.{kind_of};
ghost use Rattle.file_calls.specs.Plans.{call_shown};

/// A call.
#[derive(Clone, Copy, Debug)]
pub enum Call {
    Open,
    OpenAt,
    Close,
    Seek,
    Read,
    Write,
    Exit,
    Break,
    Unknown,
}

impl Call {
    /// The call with this number, which are those of Linux on RISC-V.
    pub fn with_number(number: u64) -> Call
        ensures { call_shown result ≡ kind_of number }
    {
        match number {
            1024 => Call::Open,
            56 => Call::OpenAt,
            57 => Call::Close,
            62 => Call::Seek,
            63 => Call::Read,
            64 => Call::Write,
            93 | 94 => Call::Exit,
            214 => Call::Break,
            _ => Call::Unknown,
        }
    }
}
