//! Sets of characters while they are put together.

ghost use Rattle.lalrpop_lexer_pattern.specs.Sets.{IsRising};

use crate::class::Range;

/// A set of Unicode code points, while it is put together: ascending ranges with a gap between each and the next.
///
/// So two sets with the same members are equal. [`CharacterSet::into_class`] makes a class of it.
#[derive(Drop)]
pub struct CharacterSet {
    /// The ranges, none of them empty, all within Unicode.
    pub ranges: Vec<Range>,
    pub ghost rising: { IsRising ranges.items },
}
