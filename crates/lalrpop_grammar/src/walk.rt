//! The walk over a tree's leaves: a stack of the lists of trees that are open, the innermost last.

ghost use Rattle.std.specs.Prelude.{◌≡◌, ◌<◌, ◌≤◌, ◌++◌, [], ◌∷◌, MatchOption, min, map, option_map, vec_len, vec_capacity};
ghost use Rattle.lalrpop_grammar.specs.Trees.{trees};
ghost use Rattle.lalrpop_grammar.specs.Views.{tree_view};
ghost use Rattle.lalrpop_grammar.specs.Walks.{children, open_in, open_through, to_come, token_at};
ghost use Rattle.lalrpop_grammar.specs.WalkViews.{leaf_view, lists_view};

use crate::leaves::Leaf;
use crate::tree::WrittenTree;
use std::slice;

/// Puts one more list of trees on the stack, which has room for it.
fn open_list<'t>(pending: &mut Vec<&'t [WrittenTree]>, list: &'t [WrittenTree])
    requires { vec_len pending.old < vec_capacity pending.old }
    ensures items { pending.new.items ≡ pending.old.items ++ list.entry ∷ [] }
    ensures room { vec_capacity pending.old ≤ vec_capacity pending.new }
{
    if pending.push(list).is_err() {
        unreachable!()
    }
}

/// The next leaf of a walk: it takes it off the lists that are open.
pub(crate) fn next_leaf<'t>(pending: &mut Vec<&'t [WrittenTree]>) -> Option<Leaf<'t>>
    requires { open_through (lists_view pending.old.items) ≤ vec_capacity pending.old }
    ensures room { open_through (lists_view pending.new.items) ≤ vec_capacity pending.new }
    ensures gives { let before = to_come (lists_view pending.old.items) in
        let after = to_come (lists_view pending.new.items) in
        MatchOption result ((before ≡ []) × (after ≡ [])) (λ x. before ≡ leaf_view x ∷ after) }
{
    while let Some(list) = pending.pop() {
        if let Some((first, others)) = list.split_first() {
            open_list(pending, others);
            if let Some(leaf) = first.as_leaf() {
                return Some(leaf);
            }
            open_list(pending, first.children());
        }
    }
    None
}

/// How many lists of trees are open at once on a walk through these trees, or `usize::MAX` where they are more.
pub(crate) fn lists_open(list: &[WrittenTree]) -> usize
    ensures { result ≡ min (open_in (trees (map tree_view list.now))) usize.MAX }
{
    let mut most = 1usize;
    for tree in list {
        let below = lists_open(tree.children()).saturating_add(1);
        if below > most {
            most = below;
        }
    }
    most
}

impl WrittenTree {
    /// The token, where the tree is a leaf.
    fn as_leaf(&self) -> Option<Leaf<'_>>
        ensures { option_map leaf_view result ≡ token_at (tree_view self.now) }
    {
        match self {
            WrittenTree::Terminal {
                terminal,
                text,
                span,
            } => Some(Leaf {
                terminal,
                text: text.as_str(),
                span: *span,
            }),
            WrittenTree::Rule { .. }
            | WrittenTree::List(_)
            | WrittenTree::Opt(_)
            | WrittenTree::Group(_)
            | WrittenTree::Look => None,
        }
    }

    /// The trees right below.
    fn children(&self) -> &[WrittenTree]
        ensures { trees (map tree_view result.now) ≡ children (tree_view self.now) }
    {
        match self {
            WrittenTree::Rule { children, .. } => children.as_slice(),
            WrittenTree::List(trees) | WrittenTree::Group(trees) => trees.as_slice(),
            WrittenTree::Opt(Some(tree)) => slice::from_ref(tree.get()),
            WrittenTree::Opt(None) | WrittenTree::Terminal { .. } | WrittenTree::Look => &[],
        }
    }
}
