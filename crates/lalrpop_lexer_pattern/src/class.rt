//! Ranges of characters, and the sets of characters that stand in a pattern's tree.

ghost use Rattle.lalrpop_lexer_pattern.specs.Ranges.{IsCanonical};

/// The characters from `start` to `end`, both included.
#[derive(Clone, Copy, Debug, PartialEq, Eq)]
pub struct Range {
    /// The first character, as a number.
    pub start: u32,
    /// The last character, as a number.
    pub end: u32,
}

/// A set of characters, as ascending ranges with a gap between each and the next.
///
/// So two classes with the same members are equal.
#[derive(Debug, Drop, PartialEq)]
pub struct Class {
    /// The ranges, none of them empty.
    pub ranges: Vec<Range>,
    pub ghost canonical: { ∥ IsCanonical ranges.items ∥₁ },
}
