//! The numbers of patterns and of states, and what a state says of the words that lead to it.

ghost use Rattle.std.specs.Prelude.{◌≡◌};

/// A pattern's number among those of an automaton.
#[derive(Clone, Copy, Debug, PartialEq, Eq, PartialOrd, Ord, Hash)]
pub struct NfaIndex(pub usize);

impl NfaIndex {
    /// The number.
    pub fn index(self) -> usize
        ensures { result ≡ self.0 }
    {
        let NfaIndex(number) = self;
        number
    }
}

/// A state's number within its automaton.
#[derive(Clone, Copy, PartialEq, Eq, PartialOrd, Ord, Hash)]
pub struct DfaStateIndex(pub usize);

impl DfaStateIndex {
    /// The number.
    pub fn index(self) -> usize
        ensures { result ≡ self.0 }
    {
        let DfaStateIndex(number) = self;
        number
    }
}

/// What a state says of the words that lead to it.
#[derive(Clone, Copy, Debug, PartialEq, Eq)]
pub enum Kind {
    /// They belong to this pattern.
    Accepts(NfaIndex),
    /// Neither they nor longer words are matched.
    Reject,
    /// They are not matched.
    Neither,
}
