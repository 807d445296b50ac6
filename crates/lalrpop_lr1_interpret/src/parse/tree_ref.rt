//! Views of trees, from the root down.

ghost use Rattle.lalrpop_lr1_interpret.specs.MoveOrders.{HasTreeSizes, IsMoveOrder};
ghost use Rattle.lalrpop_lr1_interpret.specs.TreeEntries.{tree_entry_views};

use crate::parse::expanded_tree::ExpandedTree;
use crate::parse::tree_entry::{TreeEntry, TreeLabel};
use lalrpop_grammar_repr::Production;
use lalrpop_grammar_symbols::{Span, TerminalString};

/// A tree that is lent: its root, and through it all that stands below.
#[derive(Clone, Copy)]
pub struct TreeRef<'t, 'g> {
    // The part of a tree's list that is this tree's; the root is the last.
    pub(crate) entries: &'t [TreeEntry<'g>],
    ghost in_order: { IsMoveOrder (tree_entry_views entries.now) },
}

/// Trees one beside another that are lent, to be taken from the last one back.
#[derive(Clone, Copy)]
pub struct TreeRefs<'t, 'g> {
    pub(crate) entries: &'t [TreeEntry<'g>],
    ghost in_order: { HasTreeSizes (tree_entry_views entries.now) },
}

impl<'g> ExpandedTree<'g> {
    ghost use Rattle.std.specs.Prelude.{◌≡◌};
    ghost use Rattle.lalrpop_lr1_interpret.specs.ExpandedViews.{expanded_view, lent_view};

    /// The tree, from its root down.
    pub fn root(&self) -> TreeRef<'_, 'g>
        ensures { lent_view result ≡ expanded_view self.now }
    {
        TreeRef {
            entries: self.entries.as_slice(),
        }
    }
}

impl<'t, 'g> TreeRefs<'t, 'g> {
    ghost use Rattle.std.specs.Prelude.{◌≡◌, MatchOption};
    ghost use Rattle.lalrpop_lr1_theory.specs.Spans.{none_at};
    ghost use Rattle.lalrpop_lr1_interpret.specs.ExpandedViews.{lent_view, lent_views};
    ghost use Rattle.lalrpop_lr1_interpret.specs.Stacks.{◌beside◌};

    /// The trees before the last one, and the last one; nothing where there are none.
    pub fn split_last(self) -> Option<(TreeRefs<'t, 'g>, TreeRef<'t, 'g>)>
        ensures { MatchOption result (lent_views self.entry ≡ none_at)
            (λ p. lent_views self.entry ≡ lent_views p.0 beside lent_view p.1) }
    {
        let all = self.entries;
        if all.is_empty() {
            return None;
        }
        let (before, own) = all.split_at(all.len() - all[all.len() - 1].size);
        Some((TreeRefs { entries: before }, TreeRef { entries: own }))
    }
}

impl<'t, 'g> TreeRef<'t, 'g> {
    ghost use Rattle.std.specs.Prelude.{◌≡◌, length, option_map};
    ghost use Rattle.lalrpop_grammar_symbols.specs.Views.{span_view, terminal_view};
    ghost use Rattle.lalrpop_lr1_theory.specs.Spans.{without_spans};
    ghost use Rattle.lalrpop_lr1_theory.specs.Trees.{roots};
    ghost use Rattle.lalrpop_lr1_core.specs.Views.{production_view};
    ghost use Rattle.lalrpop_lr1_interpret.specs.ExpandedViews.{lent_view, lent_views, nth_tree, root_children, root_production};
    ghost use Rattle.lalrpop_lr1_interpret.specs.ExpandedViews.{root_label, root_span, root_terminal};
    ghost use Rattle.lalrpop_lr1_interpret.specs.TreeEntries.{tree_label_view};

    /// What stands at the root.
    fn label(&self) -> &'t TreeLabel<'g>
        ensures { root_label (lent_view self.now) ≡ Some (tree_label_view result.now) }
    {
        &self.entries[self.entries.len() - 1].label
    }

    /// The production of a node; none of a leaf.
    pub fn production(&self) -> Option<&'g Production>
        ensures { option_map (λ p. production_view p.now) result ≡ root_production (lent_view self.now) }
    {
        match self.label() {
            TreeLabel::Leaf(..) => None,
            TreeLabel::Node(production) => Some(production),
        }
    }

    /// The terminal of a leaf; none of a node.
    pub fn terminal(&self) -> Option<&'t TerminalString>
        ensures { option_map (λ t. terminal_view t.now) result ≡ root_terminal (lent_view self.now) }
    {
        match self.label() {
            TreeLabel::Leaf(terminal, _) => Some(terminal),
            TreeLabel::Node(_) => None,
        }
    }

    /// Where the token of a leaf stands; none of a node.
    pub fn span(&self) -> Option<Span>
        ensures { option_map span_view result ≡ root_span (lent_view self.now) }
    {
        match self.label() {
            TreeLabel::Leaf(_, span) => Some(*span),
            TreeLabel::Node(_) => None,
        }
    }

    /// Its children, to be taken from the last one back.
    pub fn children(&self) -> TreeRefs<'t, 'g>
        ensures { lent_views result ≡ root_children (lent_view self.now) }
    {
        let (below, _) = self.entries.split_at(self.entries.len() - 1);
        TreeRefs { entries: below }
    }

    /// How many children it has.
    pub fn len(&self) -> usize
        ensures { result ≡ length (roots (without_spans (root_children (lent_view self.now)))) }
    {
        let mut children = self.children();
        let mut count = 0usize;
        while let Some((before, _)) = children.split_last() {
            count += 1;
            children = before;
        }
        count
    }

    /// The child at the place, counted from 0; none where there are fewer.
    pub fn child(&self, place: usize) -> Option<TreeRef<'t, 'g>>
        ensures { option_map lent_view result ≡ nth_tree (root_children (lent_view self.now)) place }
    {
        let mut left = self.len();
        let mut children = self.children();
        while let Some((before, last)) = children.split_last() {
            left -= 1;
            if left == place {
                return Some(last);
            }
            children = before;
        }
        None
    }
}
