//! Rules over numbers, and the moves by which trees over them are built.

/// A rule: a name, and the symbols on its right side. Names are numbers below a count, terminals those from it on.
#[derive(Drop)]
pub struct Rule {
    /// The name.
    pub left: usize,
    /// The symbols.
    pub right: Vec<usize>,
}

/// A move by which trees are built from the left.
#[derive(Clone, Copy)]
pub enum NumberMove {
    /// The shift of the terminal with this number.
    Shift(usize),
    /// The reduction by the rule with this number.
    Reduce(usize),
}
