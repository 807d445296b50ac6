//! Productions and their right sides by numbers.

/// What stands at a place of the right sides, which are laid one behind the other.
#[derive(Clone, Copy)]
pub enum Place {
    /// A symbol, by its number: nonterminals by their names in order, then terminals as the grammar has them.
    Symbol(usize),
    /// The end of the right side of the production with this number.
    End(usize),
}

/// A production by numbers.
#[derive(Clone, Copy)]
pub struct NumberedRule {
    /// The number of its left side.
    pub left: usize,
    /// The place of its first symbol, or of its end where it has none: the number of its item with the dot in front.
    pub start: usize,
}
