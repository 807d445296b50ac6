//! The precedences of patterns, and what a choice among patterns comes to.

/// Which pattern wins where several match the same word: the one with the greater number.
#[derive(Clone, Copy, PartialEq, Eq, PartialOrd, Ord)]
pub struct Precedence(pub usize);

/// Which of several patterns a state's words belong to.
#[derive(Clone, Copy)]
pub(crate) enum Outcome {
    /// None matches them.
    Nothing,
    /// This one.
    Wins(usize),
    /// Of those with the greatest precedence there are several; these are the two last.
    Ties(usize, usize),
}
