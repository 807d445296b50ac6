//! Parts of written trees.

ghost use Rattle.std.specs.Prelude.{◌≡◌, ◌↔◌, IfNone, IfOk, IfSome, IsTrue, List, map};
ghost use Rattle.lalrpop_grammar.specs.Trees.{Tree, Trees, trees};
ghost use Rattle.lalrpop_grammar_symbols.specs.Views.{symbol_view, without_marks};
ghost use Rattle.lalrpop_run_trees.specs.PartViews.{shown_part, shown_tree};

use crate::tree_parts::comparing::are_same_arguments;
use lalrpop_grammar::WrittenTree;
use lalrpop_grammar_symbols::{NonterminalString, Symbol};

/// A tree that stands in a written tree, or the front of a list in it, which is the list that stood before one more element came.
#[derive(Clone, Copy)]
pub enum Piece<'t> {
    /// A tree.
    Whole(&'t WrittenTree),
    /// The list of these trees.
    Front(&'t [WrittenTree]),
}

/// A part of a written tree, for which a symbol may stand.
#[derive(Clone, Copy)]
pub struct TreePart<'t> {
    /// The tree.
    pub piece: Piece<'t>,
    /// Whether it stands inside the one that was taken apart, and is not that one itself.
    pub is_inside: bool,
}

/// Whether the names are one.
fn is_same_rule(a: &NonterminalString, b: &NonterminalString) -> bool
    ensures { IsTrue result ↔ (a.now.0 ≡ b.now.0) }
{
    *a == *b
}

impl<'t> TreePart<'t> {
    /// The trees of a list.
    pub(crate) fn list_trees(self) -> Option<&'t [WrittenTree]>
        ensures list { IfSome result (λ ts. shown_part self.entry ≡ Tree.list (trees (map shown_tree ts.now))) }
        ensures none { IfNone result ((ts : Trees) → shown_part self.entry ≡ Tree.list ts → ⊥) }
    {
        match self.piece {
            Piece::Front(trees) => Some(trees),
            Piece::Whole(tree) => match tree {
                WrittenTree::List(trees) => Some(trees.as_slice()),
                _ => None,
            },
        }
    }

    /// The trees of a group.
    pub(crate) fn group_trees(self) -> Option<&'t [WrittenTree]>
        ensures group { IfSome result (λ ts. shown_part self.entry ≡ Tree.group (trees (map shown_tree ts.now))) }
        ensures none { IfNone result ((ts : Trees) → shown_part self.entry ≡ Tree.group ts → ⊥) }
    {
        match self.piece {
            Piece::Front(_) => None,
            Piece::Whole(tree) => match tree {
                WrittenTree::Group(trees) => Some(trees.as_slice()),
                _ => None,
            },
        }
    }

    /// The children of a node of that alternative of the rule, with these arguments.
    pub(crate) fn children_of_rule(
        self,
        rule: &NonterminalString,
        args: &[Symbol],
        place: u32,
    ) -> Option<&'t [WrittenTree]>
        ensures rule { IfSome result (λ ts. shown_part self.entry
            ≡ Tree.rule rule.now.0 (map (λ s. without_marks (symbol_view s)) args.now) place (trees (map shown_tree ts.now))) }
        ensures none { IfNone result ((ts : Trees) → shown_part self.entry
            ≡ Tree.rule rule.now.0 (map (λ s. without_marks (symbol_view s)) args.now) place ts → ⊥) }
    {
        match self.piece {
            Piece::Front(_) => None,
            Piece::Whole(tree) => match tree {
                WrittenTree::Rule {
                    rule: name,
                    args: given,
                    place: at,
                    children,
                } => {
                    if is_same_rule(name, rule)
                        && *at == place
                        && are_same_arguments(given.as_slice(), args)
                    {
                        Some(children.as_slice())
                    } else {
                        None
                    }
                }
                _ => None,
            },
        }
    }

    /// Whether it is an option without its symbol.
    pub(crate) fn is_none(self) -> bool
        ensures { IsTrue result ↔ (shown_part self.entry ≡ Tree.opt_none) }
    {
        match self.piece {
            Piece::Front(_) => false,
            Piece::Whole(tree) => matches!(tree, WrittenTree::Opt(None)),
        }
    }

    /// The tree of an option with its symbol.
    pub(crate) fn optional(self) -> Option<&'t WrittenTree>
        ensures some { IfSome result (λ t. shown_part self.entry ≡ Tree.opt_some (shown_tree t.now)) }
        ensures none { IfNone result ((u : Tree) → shown_part self.entry ≡ Tree.opt_some u → ⊥) }
    {
        match self.piece {
            Piece::Front(_) => None,
            Piece::Whole(tree) => match tree {
                WrittenTree::Opt(Some(inner)) => Some(inner.get()),
                _ => None,
            },
        }
    }

    /// Whether it is a place between tokens.
    pub(crate) fn is_look(self) -> bool
        ensures { IsTrue result ↔ (shown_part self.entry ≡ Tree.look) }
    {
        match self.piece {
            Piece::Front(_) => false,
            Piece::Whole(tree) => matches!(tree, WrittenTree::Look),
        }
    }
}
