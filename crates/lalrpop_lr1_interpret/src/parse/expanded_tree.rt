//! Trees over productions, with spans at their leaves.

ghost use Rattle.lalrpop_lr1_interpret.specs.MoveOrders.{IsMoveOrder};
ghost use Rattle.lalrpop_lr1_interpret.specs.TreeEntries.{tree_entry_views};

use crate::parse::tree_entry::{TreeEntry, TreeLabel};
use lalrpop_grammar_repr::Production;
use lalrpop_grammar_symbols::{Span, TerminalString};
use std::alloc::{AllocError, Global};

/// A tree over productions. Contracts see it as a tree of the tables' theory, with spans at its leaves.
#[derive(Drop)]
pub struct ExpandedTree<'g> {
    // Its leaves and nodes in the order of its moves: children before their node, the first child first, the root last.
    pub(crate) entries: Vec<TreeEntry<'g>>,
    ghost in_order: { IsMoveOrder (tree_entry_views entries.items) },
}

impl<'g> ExpandedTree<'g> {
    ghost use Rattle.std.specs.Prelude.{◌≡◌, ◌++◌, IfOk, min};
    ghost use Rattle.lalrpop_grammar_symbols.specs.Views.{span_view, terminal_view};
    ghost use Rattle.lalrpop_lr1_theory.specs.Spans.{leaf_at, node_at, none_at, without_spans};
    ghost use Rattle.lalrpop_lr1_theory.specs.Trees.{nodes};
    ghost use Rattle.lalrpop_lr1_core.specs.Views.{production_view};
    ghost use Rattle.lalrpop_lr1_interpret.specs.ExpandedViews.{expanded_view, expanded_views};
    ghost use Rattle.lalrpop_lr1_interpret.specs.MoveOrders.{HasTreeSizes, tree_entries, trees_of};
    ghost use Rattle.lalrpop_lr1_interpret.specs.TreeEntries.{tree_entry_views};

    /// A leaf.
    pub fn leaf(
        alloc: Global,
        terminal: TerminalString,
        span: Span,
    ) -> Result<ExpandedTree<'g>, AllocError>
        ensures { IfOk result (λ tree. expanded_view tree ≡ leaf_at (terminal_view terminal) (span_view span) none_at) }
    {
        let mut entries = Vec::with_capacity(alloc, 1)?;
        let label = TreeLabel::Leaf(terminal, span);
        entries.push(TreeEntry { label, size: 1 })?;
        Ok(ExpandedTree { entries })
    }

    /// A node by the production over these children.
    pub fn node(
        production: &'g Production,
        children: Vec<ExpandedTree<'g>>,
    ) -> Result<ExpandedTree<'g>, AllocError>
        ensures { IfOk result (λ tree. expanded_view tree
            ≡ node_at (production_view production.now) (expanded_views children.entry.items) none_at) }
    {
        let mut entries = ExpandedTree::join(children)?;
        let label = TreeLabel::Node(production);
        let size = entries.len() + 1;
        entries.push(TreeEntry { label, size })?;
        Ok(ExpandedTree { entries })
    }

    /// The entries of the trees, in the list of the first of them; without trees, in a list of the same memory.
    fn join(trees: Vec<ExpandedTree<'g>>) -> Result<Vec<TreeEntry<'g>>, AllocError>
        ensures in_order { IfOk result (λ entries. HasTreeSizes (tree_entry_views entries.items)) }
        ensures trees_are { IfOk result (λ entries. trees_of (tree_entry_views entries.items) ≡ expanded_views trees.entry.items) }
    {
        let mut entries = Vec::new(*trees.allocator());
        for tree in trees {
            entries = ExpandedTree::with_entries(entries, tree.entries)?;
        }
        Ok(entries)
    }

    /// The entries, the others behind them; the list of the others where there are no entries.
    fn with_entries(
        entries: Vec<TreeEntry<'g>>,
        others: Vec<TreeEntry<'g>>,
    ) -> Result<Vec<TreeEntry<'g>>, AllocError>
        ensures { IfOk result (λ all. all.items ≡ entries.entry.items ++ others.entry.items) }
    {
        if entries.is_empty() {
            return Ok(others);
        }
        let mut all = entries;
        let mut more = others;
        all.append(&mut more)?;
        Ok(all)
    }

    /// Its leaves and nodes in the order of its moves: children before their node, the first child first, the root last.
    pub fn entries(&self) -> &[TreeEntry<'g>]
        ensures { tree_entry_views result.now ≡ tree_entries (expanded_view self.now) }
    {
        self.entries.as_slice()
    }

    /// How many leaves and nodes it has; the greatest number where they are more.
    pub fn node_count(&self) -> usize
        ensures { result ≡ min (nodes (without_spans (expanded_view self.now))) usize.MAX }
    {
        self.entries.len()
    }
}
