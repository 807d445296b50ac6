//! Roots of trees, as the walk over a tree's list keeps them.

ghost use Rattle.lalrpop_judge.specs.TreeRoots.{tree_root_view};

use lalrpop_grammar_repr::{Production, Symbol};
use lalrpop_grammar_symbols::TerminalString;
use lalrpop_lr1_interpret::parse::{TreeEntry, TreeLabel};

/// The root of a tree that the walk has come past.
#[derive(Clone, Copy)]
pub(crate) enum TreeRoot<'t, 'g> {
    /// A leaf.
    Leaf(&'t TerminalString),
    /// A node, and how many entries its tree has.
    Node(&'g Production, usize),
}

impl<'t, 'g> TreeRoot<'t, 'g> {
    ghost use Rattle.std.specs.Prelude.{◌≡◌, ◌↔◌, IsTrue};
    ghost use Rattle.lalrpop_lr1_core.specs.Views.{production_symbol_view};
    ghost use Rattle.lalrpop_lr1_interpret.specs.TreeEntries.{tree_label_view};
    ghost use Rattle.lalrpop_judge.specs.EntryMoves.{label_root};

    /// The root that the entry is.
    pub(crate) fn new(entry: &'t TreeEntry<'g>) -> TreeRoot<'t, 'g>
        ensures { tree_root_view result ≡ label_root (tree_label_view entry.now.label) entry.now.size }
    {
        match &entry.label {
            TreeLabel::Leaf(terminal, _) => TreeRoot::Leaf(terminal),
            TreeLabel::Node(production) => TreeRoot::Node(*production, entry.size),
        }
    }

    /// Whether it is a leaf of the terminal, or a node of the nonterminal.
    pub(crate) fn has_symbol(&self, symbol: &Symbol) -> bool
        ensures { IsTrue result ↔ ((tree_root_view self.now).symbol ≡ production_symbol_view symbol.now) }
    {
        match self {
            TreeRoot::Leaf(terminal) => match symbol {
                Symbol::Terminal(other) => **terminal == *other,
                Symbol::Nonterminal(_) => false,
            },
            TreeRoot::Node(production, _) => match symbol {
                Symbol::Terminal(_) => false,
                Symbol::Nonterminal(name) => production.nonterminal == *name,
            },
        }
    }

    /// How many entries its tree has.
    pub(crate) fn size(&self) -> usize
        ensures { result ≡ (tree_root_view self.now).size }
    {
        match self {
            TreeRoot::Leaf(_) => 1,
            TreeRoot::Node(_, size) => *size,
        }
    }
}
