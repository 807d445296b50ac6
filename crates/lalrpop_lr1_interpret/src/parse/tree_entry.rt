//! What an expanded tree is made of: its leaves and nodes, one behind another.

use lalrpop_grammar_repr::Production;
use lalrpop_grammar_symbols::{Span, TerminalString};

/// What stands at a leaf or a node.
#[derive(Drop)]
pub enum TreeLabel<'g> {
    /// A terminal, and where its token stands.
    Leaf(TerminalString, Span),
    /// A production.
    Node(&'g Production),
}

/// A leaf or a node in the list of its tree.
#[derive(Drop)]
pub struct TreeEntry<'g> {
    /// What it is.
    pub label: TreeLabel<'g>,
    /// How many entries its subtree has, itself included.
    pub size: usize,
}
