//! Spans: where a thing is written, in bytes.

/// From which byte to which byte a thing stands, in the grammar's source or in a text.
#[derive(Clone, Copy, Debug, PartialEq, Eq, PartialOrd, Ord, Hash)]
pub struct Span(pub usize, pub usize);
