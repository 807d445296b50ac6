//! The two ways to LR(1) states.

/// How LR(1) states are built.
#[derive(Clone, Copy, Debug, PartialEq, Eq)]
pub enum Method {
    /// By lane tables: LR(0) states, each copied where lookaheads have to be kept apart (Pager 1977).
    Lane {
        /// How many states may be copied at most. One more, and the canonical way is taken.
        copies: usize,
    },
    /// The canonical LR(1) states (Knuth 1965).
    Canonical,
}
