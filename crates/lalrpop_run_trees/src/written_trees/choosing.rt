//! The written tree of a node by its choice and the written trees of its children.

ghost use Rattle.std.specs.Prelude.{◌≡◌, IfOk, map};
ghost use Rattle.lalrpop_grammar.specs.Trees.{trees};
ghost use Rattle.lalrpop_grammar.specs.Views.{origin_view, tree_view};
ghost use Rattle.lalrpop_grammar_language.specs.Derivations.{append_tree, first_tree, plus_more_tree, tree_by_origin};

use lalrpop_grammar::{Origin, WrittenTree};
use lalrpop_grammar_symbols::{Boxed, List, clone_symbols};
use std::alloc::{AllocError, Global};

/// The first of the trees; where there is none, an option without its symbol.
fn first_of(children: Vec<WrittenTree>) -> WrittenTree
    ensures { tree_view result ≡ first_tree (trees (map tree_view children.items)) }
{
    match children.into_iter().next() {
        Some(tree) => tree,
        None => WrittenTree::Opt(None),
    }
}

/// The list with one more element.
fn longer_list(list: WrittenTree, element: WrittenTree) -> Result<WrittenTree, AllocError>
    ensures { IfOk result (λ longer. tree_view longer ≡ append_tree (tree_view list) (tree_view element)) }
{
    match list.into_elements() {
        Some(mut trees) => {
            trees.push(element)?;
            Ok(WrittenTree::List(trees))
        }
        None => Ok(WrittenTree::Opt(None)),
    }
}

/// The list that the first of the trees is, with the second as one more element.
fn with_element(children: Vec<WrittenTree>) -> Result<WrittenTree, AllocError>
    ensures { IfOk result (λ longer. tree_view longer ≡ plus_more_tree (trees (map tree_view children.items))) }
{
    let mut rest = children.into_iter();
    match rest.next() {
        Some(list) => match rest.next() {
            Some(element) => longer_list(list, element),
            None => Ok(WrittenTree::Opt(None)),
        },
        None => Ok(WrittenTree::Opt(None)),
    }
}

/// The written tree of a node by its choice, over the trees of its children.
pub(crate) fn tree_of_choice(
    alloc: Global,
    origin: &Origin,
    children: Vec<WrittenTree>,
) -> Result<WrittenTree, AllocError>
    ensures { IfOk result (λ tree. tree_view tree ≡ tree_by_origin (origin_view origin.now) (trees (map tree_view children.items))) }
{
    match origin {
        Origin::Start | Origin::PassDown | Origin::StarSome => Ok(first_of(children)),
        Origin::Alternative { rule, args, place } => Ok(WrittenTree::Rule {
            rule: rule.try_clone()?,
            args: clone_symbols(alloc, args.as_slice())?,
            place: *place,
            children: List::from_vec(children),
        }),
        Origin::PlusOne => Ok(WrittenTree::List(List::from_vec(children))),
        Origin::PlusMore => with_element(children),
        Origin::StarNone => Ok(WrittenTree::List(List::new(alloc))),
        Origin::OptNone => Ok(WrittenTree::Opt(None)),
        Origin::OptSome => Ok(WrittenTree::Opt(Some(Boxed::new(alloc, first_of(children))?))),
        Origin::Group => Ok(WrittenTree::Group(List::from_vec(children))),
        Origin::Look => Ok(WrittenTree::Look),
    }
}
