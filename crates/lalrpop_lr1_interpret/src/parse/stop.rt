//! Why a parse gives no tree.

/// Why a parse gives no tree.
#[derive(Debug, PartialEq, Eq, Drop)]
pub enum Stop {
    /// The tokens up to and with the one at this place begin no sentence; those before it do.
    Token(usize),
    /// All tokens begin a sentence, and are none.
    End,
    /// More moves would be made than the limit says.
    Limit,
    /// Memory ran out.
    Memory,
}
