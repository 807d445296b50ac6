//! The collection that holds nothing.

/// The content of nothing: as a lookahead it says nothing of what comes next.
#[derive(Debug, Clone, Copy, PartialEq, Eq, PartialOrd, Ord, Hash)]
pub struct Nil;
