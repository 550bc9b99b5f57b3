//! What stops a program, and what a hart may touch.

/// Why an instruction can't complete (RISC-V Unprivileged ISA 20191213, section 1.6).
#[derive(Clone, Copy, Debug, PartialEq, Eq)]
pub enum Trap {
    /// The word is no instruction of RV64IM, or isn't legal in the hart's view.
    Illegal,
    /// The pc isn't in the view's code, or isn't a multiple of 4.
    FetchOut,
    /// A load or store isn't aligned to its width, or a jump's target isn't a multiple of 4.
    Misaligned,
    /// A loaded byte isn't in the view.
    LoadOut,
    /// A stored byte isn't in the view.
    StoreOut,
    /// EBREAK.
    Break,
}

/// Which code a hart runs, and with it what it may fetch, load and store.
#[derive(Clone, Copy, Debug, PartialEq, Eq)]
pub enum View {
    /// An original program: its ECALLs are calls.
    Plain,
    /// A rewritten program: its calls are gates into the stub.
    Program,
    /// The stub, which performs the calls of a rewritten program.
    Stub,
    /// The shadow, which runs ahead of a rewritten program.
    Shadow,
}
