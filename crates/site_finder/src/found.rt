//! Where the words of a text stand that a rewriting replaces.

/// Where a text has words that a rewriting replaces, as indices of its words, ascending.
#[derive(Debug, Drop)]
pub struct Sites {
    /// The words of ECALL.
    pub calls: Vec<usize>,
    /// The words of the opcode custom-0, in which the gate instructions stand.
    pub specials: Vec<usize>,
}
