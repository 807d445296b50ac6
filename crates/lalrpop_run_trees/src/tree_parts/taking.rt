//! The children that a part of a written tree has by a choice.

ghost use Rattle.std.specs.Prelude.{◌≡◌, ◌+◌, ◌<◌, ◌∷◌, [], ℕ, IfNone, IfOk, IfSome, IsTrue, map, true};
ghost use Rattle.lalrpop_grammar.specs.Trees.{Tree, trees};
ghost use Rattle.lalrpop_grammar.specs.Views.{origin_view};
ghost use Rattle.lalrpop_grammar.specs.WrittenGrammar as written;
ghost use Rattle.lalrpop_grammar_symbols.specs.Views.{symbol_view, without_marks};
ghost use Rattle.lalrpop_run_trees.specs.PartViews.{AllInside, LieWithin, TellsChildren, shown_part, shown_tree};
ghost use Rattle.lalrpop_run_trees.specs.TreeSizes.{tree_size, trees_size};

use crate::tree_parts::tree_part::{Piece, TreePart};
use lalrpop_grammar::{Origin, WrittenTree};
use lalrpop_grammar_symbols::{NonterminalString, Symbol};
use std::alloc::{AllocError, Global};

/// The tree, inside another.
fn inside(tree: &WrittenTree) -> TreePart<'_>
    ensures tree { shown_part result ≡ shown_tree tree.now }
    ensures inside { result.is_inside ≡ true }
{
    TreePart {
        piece: Piece::Whole(tree),
        is_inside: true,
    }
}

/// The trees, inside another.
fn all_inside<'t>(
    alloc: Global,
    elements: &'t [WrittenTree],
) -> Result<Vec<TreePart<'t>>, AllocError>
    ensures trees { IfOk result (λ parts. map shown_part parts.items ≡ map shown_tree elements.now) }
    ensures inside { IfOk result (λ parts. (size : ℕ) → trees_size (trees (map shown_tree elements.now)) < size
        → AllInside size parts.items) }
{
    let mut parts = Vec::new(alloc);
    for tree in elements {
        parts.push(inside(tree))?;
    }
    Ok(parts)
}

/// The part alone.
pub(crate) fn alone<'t>(alloc: Global, part: TreePart<'t>) -> Result<Vec<TreePart<'t>>, AllocError>
    ensures { IfOk result (λ parts. parts.items ≡ part.entry ∷ []) }
{
    let mut parts = Vec::new(alloc);
    parts.push(part)?;
    Ok(parts)
}

/// The list that stood before its last element came, and the last element.
fn front_and_last<'t>(
    alloc: Global,
    front: &'t [WrittenTree],
    last: &'t WrittenTree,
) -> Result<Vec<TreePart<'t>>, AllocError>
    ensures trees { IfOk result (λ parts. map shown_part parts.items
        ≡ Tree.list (trees (map shown_tree front.now)) ∷ shown_tree last.now ∷ []) }
    ensures inside { IfOk result (λ parts. (size : ℕ) → trees_size (trees (map shown_tree front.now)) + 1 < size
        → tree_size (shown_tree last.now) < size → AllInside size parts.items) }
{
    let mut parts = Vec::new(alloc);
    parts.push(TreePart {
        piece: Piece::Front(front),
        is_inside: true,
    })?;
    parts.push(inside(last))?;
    Ok(parts)
}

/// The one element of a list that has one.
fn only_element<'t>(
    alloc: Global,
    part: TreePart<'t>,
) -> Result<Option<Vec<TreePart<'t>>>, AllocError>
    ensures children { IfOk result (TellsChildren written.Origin.plus_one part.entry) }
    ensures within { IfOk result (LieWithin part.entry) }
{
    match part.list_trees() {
        Some(trees) if trees.len() == 1 => Ok(Some(all_inside(alloc, trees)?)),
        _ => Ok(None),
    }
}

/// The parts of a longer list.
fn last_element<'t>(
    alloc: Global,
    part: TreePart<'t>,
) -> Result<Option<Vec<TreePart<'t>>>, AllocError>
    ensures children { IfOk result (TellsChildren written.Origin.plus_more part.entry) }
    ensures within { IfOk result (LieWithin part.entry) }
{
    match part.list_trees() {
        Some(trees) => match trees.split_last() {
            Some((last, front)) => Ok(Some(front_and_last(alloc, front, last)?)),
            None => Ok(None),
        },
        None => Ok(None),
    }
}

/// No parts, where it is so.
fn nothing_where<'t>(alloc: Global, is_so: bool) -> Option<Vec<TreePart<'t>>>
    ensures some { IfSome result (λ parts. IsTrue is_so × (parts.items ≡ [])) }
    ensures none { IfNone result (IsTrue is_so → ⊥) }
{
    if is_so { Some(Vec::new(alloc)) } else { None }
}

/// The children of a node of that alternative of the rule.
fn children_of_alternative<'t>(
    alloc: Global,
    rule: &NonterminalString,
    args: &[Symbol],
    place: u32,
    part: TreePart<'t>,
) -> Result<Option<Vec<TreePart<'t>>>, AllocError>
    ensures children { IfOk result (TellsChildren
        (written.Origin.alternative rule.now.0 (map (λ s. without_marks (symbol_view s)) args.now) place) part.entry) }
    ensures within { IfOk result (LieWithin part.entry) }
{
    match part.children_of_rule(rule, args, place) {
        Some(trees) => Ok(Some(all_inside(alloc, trees)?)),
        None => Ok(None),
    }
}

/// The trees of a group.
fn children_of_group<'t>(
    alloc: Global,
    part: TreePart<'t>,
) -> Result<Option<Vec<TreePart<'t>>>, AllocError>
    ensures children { IfOk result (TellsChildren written.Origin.group part.entry) }
    ensures within { IfOk result (LieWithin part.entry) }
{
    match part.group_trees() {
        Some(trees) => Ok(Some(all_inside(alloc, trees)?)),
        None => Ok(None),
    }
}

/// Nothing, of an empty list.
fn nothing_of_list<'t>(alloc: Global, part: TreePart<'t>) -> Option<Vec<TreePart<'t>>>
    ensures children { TellsChildren written.Origin.star_none part.entry result }
    ensures within { LieWithin part.entry result }
{
    match part.list_trees() {
        Some(trees) => nothing_where(alloc, trees.is_empty()),
        None => None,
    }
}

/// The tree of an option with its symbol.
fn child_of_option<'t>(
    alloc: Global,
    part: TreePart<'t>,
) -> Result<Option<Vec<TreePart<'t>>>, AllocError>
    ensures children { IfOk result (TellsChildren written.Origin.opt_some part.entry) }
    ensures within { IfOk result (LieWithin part.entry) }
{
    match part.optional() {
        Some(tree) => Ok(Some(alone(alloc, inside(tree))?)),
        None => Ok(None),
    }
}

/// The children of the part by the choice; none where it isn't a tree by that choice.
pub(crate) fn parts_by_choice<'t>(
    alloc: Global,
    origin: &Origin,
    part: TreePart<'t>,
) -> Result<Option<Vec<TreePart<'t>>>, AllocError>
    ensures children { IfOk result (TellsChildren (origin_view origin.now) part.entry) }
    ensures within { IfOk result (LieWithin part.entry) }
{
    match origin {
        Origin::Start | Origin::PassDown | Origin::StarSome => Ok(Some(alone(alloc, part)?)),
        Origin::Alternative { rule, args, place } => {
            children_of_alternative(alloc, rule, args.as_slice(), *place, part)
        }
        Origin::PlusOne => only_element(alloc, part),
        Origin::PlusMore => last_element(alloc, part),
        Origin::StarNone => Ok(nothing_of_list(alloc, part)),
        Origin::OptNone => Ok(nothing_where(alloc, part.is_none())),
        Origin::OptSome => child_of_option(alloc, part),
        Origin::Group => children_of_group(alloc, part),
        Origin::Look => Ok(nothing_where(alloc, part.is_look())),
    }
}
