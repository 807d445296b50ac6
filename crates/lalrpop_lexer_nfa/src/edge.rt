//! Labelled edges between states, and the numbers of states.

/// A state's number within its automaton.
#[derive(Clone, Copy, PartialEq, Eq, PartialOrd, Ord, Hash)]
pub struct NfaStateIndex(pub usize);

/// An edge from one state to another, with what it reads.
#[derive(Clone, Copy)]
pub struct Edge<L> {
    /// The state that it comes from.
    pub from: NfaStateIndex,
    /// What it reads.
    pub label: L,
    /// The state that it leads to.
    pub to: NfaStateIndex,
}

/// The label of an epsilon edge, which reads nothing.
#[derive(Clone, Copy, PartialEq, Eq)]
pub struct Noop;

/// The label of an edge that reads a character which no test of its state holds.
#[derive(Clone, Copy, PartialEq, Eq)]
pub struct Other;
