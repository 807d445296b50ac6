//! Conflict certificates: what two sentences show of a conflict.

use crate::certificates::moves::Move;
use lalrpop_grammar_symbols::TerminalString;
use lalrpop_lr1_interpret::parse::ExpandedTree;

/// A conflict, shown by two whole trees that agree up to one place and need different moves there.
pub struct Certificate<'p> {
    /// The trees that both have in common, complete before the moves.
    pub shared: Vec<ExpandedTree<'p>>,
    /// The terminal that comes next; none where it is the end.
    pub next: Option<TerminalString>,
    /// The move of the first tree.
    pub move1: Move,
    /// The first tree.
    pub tree1: ExpandedTree<'p>,
    /// The move of the second tree.
    pub move2: Move,
    /// The second tree.
    pub tree2: ExpandedTree<'p>,
}

impl<'p> Drop for Certificate<'p> {
    /// Drops what it holds: where it is owned, that is one call.
    fn drop(self) {
        let Certificate {
            shared: _shared,
            next: _next,
            move1: _move1,
            tree1: _tree1,
            move2: _move2,
            tree2: _tree2,
        } = self;
    }
}
