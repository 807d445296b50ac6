//! The written tree of a node by its action: a given action is a written choice; of one that inlining added, the record says how its
//! children stand below the nodes that were inlined.

ghost use Rattle.std.specs.Prelude.{◌≡◌, ◌≤◌, ◌∷◌, [], ℕ, IfOk, List, drop, length, map, take};
ghost use Rattle.std.specs.Vec.Iter.{into_iter_items};
ghost use Rattle.lalrpop_grammar.specs.Views.{tree_view};
ghost use Rattle.lalrpop_grammar.specs.declared.tree.WrittenTree.{WrittenTree};
ghost use Rattle.lalrpop_run_trees.specs.ActionLabels.{ChoiceInlinings, ChoiceLabel, TellEntries, TellsLabel};
ghost use Rattle.lalrpop_run_trees.specs.ActionLabels.{symbols_after_entry};
ghost use Rattle.lalrpop_run_trees.specs.LabelledTrees.{tree_by_label, trees_by_inlinings};

use crate::records::record_of;
use crate::written_trees::choosing::tree_of_choice;
use lalrpop_grammar::{Origin, WrittenTree};
use lalrpop_grammar_repr::{ActionFn, ActionFnDefn, InlinedSymbol};
use std::alloc::{AllocError, Global};
use std::vec::IntoIter;

/// The next tree; an option without its symbol where none is left.
fn next_tree(rest: &mut IntoIter<WrittenTree>) -> WrittenTree
    ensures tree { (first : WrittenTree) (others : List WrittenTree) → into_iter_items rest.old ≡ first ∷ others → result ≡ first }
    ensures left { into_iter_items rest.new ≡ drop 1 (into_iter_items rest.old) }
{
    match rest.next() {
        Some(tree) => tree,
        None => WrittenTree::Opt(None),
    }
}

/// The next trees, so many of them; all that are left, where these are fewer.
fn next_trees(
    alloc: Global,
    rest: &mut IntoIter<WrittenTree>,
    count: usize,
) -> Result<Vec<WrittenTree>, AllocError>
    ensures taken { IfOk result (λ taken. taken.items ≡ take count (into_iter_items rest.old)) }
    ensures left { IfOk result (λ taken. into_iter_items rest.new ≡ drop count (into_iter_items rest.old)) }
{
    let mut taken = Vec::new(alloc);
    for _ in 0..count {
        match rest.next() {
            Some(tree) => taken.push(tree)?,
            None => return Ok(taken),
        }
    }
    Ok(taken)
}

/// The tree of a symbol of a record whose actions are below this one, from the next of the trees: where it was kept, the next; where it
/// was inlined, that of its action.
#[cycle(recorded)]
fn tree_of_symbol(
    alloc: Global,
    actions: &[ActionFnDefn],
    origins: &[Origin],
    symbol: &InlinedSymbol,
    below: usize,
    rest: &mut IntoIter<WrittenTree>,
) -> Result<WrittenTree, AllocError>
    ensures tree { (count : ℕ) (entries : ChoiceInlinings) → TellEntries actions.now origins.now below (symbol.now ∷ []) count entries
        → count ≤ length (into_iter_items rest.old)
        → IfOk result (λ tree. tree_view tree ∷ [] ≡ trees_by_inlinings entries (map tree_view (into_iter_items rest.old))) }
    ensures left { IfOk result (λ tree. into_iter_items rest.new
        ≡ drop (symbols_after_entry symbol.now) (into_iter_items rest.old)) }
{
    match symbol {
        InlinedSymbol::Original(_) => Ok(next_tree(rest)),
        InlinedSymbol::Inlined(action, side) => {
            let children = next_trees(alloc, rest, side.len())?;
            if action.index() < below {
                tree_of_action(alloc, actions, origins, *action, children)
            } else {
                // No record names an action that came after it.
                Ok(WrittenTree::Opt(None))
            }
        }
    }
}

/// A tree for each symbol of a record whose actions are below this one.
#[cycle(recorded)]
fn trees_of_record(
    alloc: Global,
    actions: &[ActionFnDefn],
    origins: &[Origin],
    symbols: &[InlinedSymbol],
    below: usize,
    children: Vec<WrittenTree>,
) -> Result<Vec<WrittenTree>, AllocError>
    ensures trees { (entries : ChoiceInlinings) →
        TellEntries actions.now origins.now below symbols.now (length children.items) entries
        → IfOk result (λ made. map tree_view made.items ≡ trees_by_inlinings entries (map tree_view children.items)) }
    ensures count { IfOk result (λ made. length made.items ≡ length symbols.now) }
{
    let mut made = Vec::new(alloc);
    let mut rest = children.into_iter();
    for symbol in symbols {
        let tree = tree_of_symbol(alloc, actions, origins, symbol, below, &mut rest)?;
        made.push(tree)?;
    }
    Ok(made)
}

/// The written tree of a node by its action, over the trees of its children.
///
/// # Errors
///
/// Want of memory.
#[cycle(recorded)]
pub fn tree_of_action(
    alloc: Global,
    actions: &[ActionFnDefn],
    origins: &[Origin],
    action: ActionFn,
    children: Vec<WrittenTree>,
) -> Result<WrittenTree, AllocError>
    ensures { (label : ChoiceLabel) → TellsLabel actions.now origins.now action.0 (length children.items) label
        → IfOk result (λ tree. tree_view tree ≡ tree_by_label label (map tree_view children.items)) }
{
    if let Some(origin) = origins.get(action.index()) {
        return tree_of_choice(alloc, origin, children);
    }
    match record_of(actions, action) {
        Some(record) if record.action.index() < action.index() => {
            let symbols = record.symbols.as_slice();
            let trees = trees_of_record(
                alloc,
                actions,
                origins,
                symbols,
                action.index(),
                children,
            )?;
            tree_of_action(alloc, actions, origins, record.action, trees)
        }
        // It isn't one that inlining makes.
        _ => Ok(WrittenTree::Opt(None)),
    }
}
