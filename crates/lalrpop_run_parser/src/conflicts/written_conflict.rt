//! Conflicts with trees of the written grammar.

use lalrpop_grammar::WrittenTree;
use lalrpop_grammar_symbols::TerminalString;

/// What a parser would have to do.
#[derive(Clone, Copy)]
pub enum WrittenMove {
    /// Shift what comes next.
    Shift,
    /// Reduce by a production.
    Reduce,
}

/// A conflict, shown by two trees of the written grammar.
#[derive(Drop)]
pub struct WrittenConflict {
    /// How many trees both have in common, complete before the moves.
    pub shared: usize,
    /// The terminal that comes next; none where it is the end.
    pub next: Option<TerminalString>,
    /// The move of the first tree.
    pub move1: WrittenMove,
    /// The first tree.
    pub tree1: WrittenTree,
    /// The move of the second tree.
    pub move2: WrittenMove,
    /// The second tree.
    pub tree2: WrittenTree,
}
