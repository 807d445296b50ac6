//! Expanded trees beside one another, in one list.

ghost use Rattle.std.specs.Prelude.{◌≤◌, length};
ghost use Rattle.lalrpop_lr1_theory.specs.Spans.{without_spans};
ghost use Rattle.lalrpop_lr1_theory.specs.Trees.{roots};
ghost use Rattle.lalrpop_lr1_interpret.specs.MoveOrders.{HasTreeSizes, trees_of};
ghost use Rattle.lalrpop_lr1_interpret.specs.ListParts.{HasLastTrees};
ghost use Rattle.lalrpop_lr1_interpret.specs.TreeEntries.{tree_entry_views};

use crate::parse::expanded_tree::ExpandedTree;
use crate::parse::tree_entry::{TreeEntry, TreeLabel};
use crate::parse::tree_stack::TreeStack;
use lalrpop_grammar::ScanToken;
use lalrpop_grammar_repr::Production;
use lalrpop_grammar_symbols::{Span, TerminalString};
use std::alloc::{AllocError, Global};

/// Expanded trees beside one another: their lists, one behind another, in one. It grows by a leaf or a node, in the order of the moves.
#[derive(Drop)]
pub struct TreeList<'g> {
    entries: Vec<TreeEntry<'g>>,
    ghost in_order: { HasTreeSizes (tree_entry_views entries.items) },
}

impl<'g> TreeList<'g> {
    ghost use Rattle.std.specs.Prelude.{◌≡◌, ◌≤◌, IfOk, MatchOption, OnErr, OnOk, length};
    ghost use Rattle.lalrpop_grammar_symbols.specs.Views.{span_view, terminal_view};
    ghost use Rattle.lalrpop_lr1_theory.specs.Spans.{SpannedForest, leaf_at, node_at, none_at, without_spans};
    ghost use Rattle.lalrpop_lr1_theory.specs.Trees.{nodes, roots};
    ghost use Rattle.lalrpop_lr1_core.specs.Views.{production_view};
    ghost use Rattle.lalrpop_lr1_interpret.specs.ExpandedViews.{expanded_view, expanded_views, listed_views};
    ghost use Rattle.lalrpop_lr1_interpret.specs.ListParts.{HasFirstTrees};
    ghost use Rattle.lalrpop_lr1_interpret.specs.Stacks.{◌beside◌};

    /// No trees.
    pub fn new(alloc: Global) -> TreeList<'g>
        ensures { listed_views result ≡ none_at }
    {
        TreeList {
            entries: Vec::new(alloc),
        }
    }

    /// How many leaves and nodes the trees have.
    pub fn len(&self) -> usize
        ensures { result ≡ nodes (without_spans (listed_views self.now)) }
    {
        self.entries.len()
    }

    /// Puts a leaf beside the trees.
    ///
    /// # Errors
    ///
    /// Memory is refused. The trees are those that they were.
    pub fn push_leaf(&mut self, terminal: TerminalString, span: Span) -> Result<(), AllocError>
        ensures leaf { OnOk result (listed_views self.new
            ≡ listed_views self.old beside leaf_at (terminal_view terminal) (span_view span) none_at) }
        ensures kept { OnErr result (listed_views self.new ≡ listed_views self.old) }
    {
        let label = TreeLabel::Leaf(terminal, span);
        self.entries.push(TreeEntry { label, size: 1 })?;
        Ok(())
    }

    /// Puts a node over the last of the trees, as many as the production has symbols.
    ///
    /// # Errors
    ///
    /// Memory is refused. The trees are those that they were.
    pub fn push_node(&mut self, production: &'g Production) -> Result<(), AllocError>
        requires { length (production_view production.now).right ≤ length (roots (without_spans (listed_views self.old))) }
        ensures node { (before children : SpannedForest) → listed_views self.old ≡ before beside children
            → length (roots (without_spans children)) ≡ length (production_view production.now).right
            → OnOk result (listed_views self.new ≡ before beside node_at (production_view production.now) children none_at) }
        ensures kept { OnErr result (listed_views self.new ≡ listed_views self.old) }
    {
        let below = size_of_last(self.entries.as_slice(), production.symbols.len());
        let label = TreeLabel::Node(production);
        self.entries.push(TreeEntry {
            label,
            size: below + 1,
        })?;
        Ok(())
    }

    /// Keeps the first of the trees, those that have so many leaves and nodes together.
    pub fn truncate(&mut self, len: usize)
        requires { HasFirstTrees (listed_views self.old) len }
        ensures { (first others : SpannedForest) → listed_views self.old ≡ first beside others
            → nodes (without_spans first) ≡ len → listed_views self.new ≡ first }
    {
        self.entries.truncate(len);
    }

    /// Takes the last tree off; none where there are none.
    fn pop(&mut self) -> Result<Option<ExpandedTree<'g>>, AllocError>
        ensures { IfOk result (λ last. MatchOption last (listed_views self.old ≡ none_at)
            (λ tree. listed_views self.old ≡ listed_views self.new beside expanded_view tree)) }
    {
        if self.entries.is_empty() {
            return Ok(None);
        }
        let size = self.entries[self.entries.len() - 1].size;
        let entries = self.entries.split_off(self.entries.len() - size)?;
        Ok(Some(ExpandedTree { entries }))
    }

    /// Its only tree.
    pub fn into_tree(self) -> ExpandedTree<'g>
        requires { length (roots (without_spans (listed_views self))) ≡ 1 }
        ensures { expanded_view result ≡ listed_views self.entry }
    {
        ExpandedTree {
            entries: self.entries,
        }
    }

    /// Its trees, each in a list of its own.
    ///
    /// # Errors
    ///
    /// Memory is refused.
    pub fn into_trees(self) -> Result<Vec<ExpandedTree<'g>>, AllocError>
        ensures { IfOk result (λ trees. expanded_views trees.items ≡ listed_views self.entry) }
    {
        let mut list = self;
        let mut trees = Vec::new(*list.entries.allocator());
        while let Some(tree) = list.pop()? {
            trees.push(tree)?;
        }
        trees.reverse();
        Ok(trees)
    }
}

/// How many entries the last `count` trees have together.
fn size_of_last(entries: &[TreeEntry<'_>], count: usize) -> usize
    requires order { HasTreeSizes (tree_entry_views entries.now) }
    requires enough { count ≤ length (roots (without_spans (trees_of (tree_entry_views entries.now)))) }
    ensures { HasLastTrees (trees_of (tree_entry_views entries.now)) count result }
{
    let mut size = 0usize;
    for taken in 0..count {
        size += entries[entries.len() - size - 1].size;
    }
    size
}

impl<'g> TreeStack<'g> for TreeList<'g> {
    ghost use Rattle.std.specs.Prelude.{◌≡◌};
    ghost use Rattle.lalrpop_lr1_interpret.specs.ExpandedViews.{listed_views};

    ghost given = { λ _. tt };

    ghost stands = { λ it ts _. listed_views it ≡ ts };

    fn leaf(&mut self, token: &ScanToken<'_>) -> Result<(), AllocError> {
        self.push_leaf(token.terminal.try_clone()?, token.span)
    }

    fn node(&mut self, production: &'g Production) -> Result<(), AllocError> {
        self.push_node(production)
    }
}
