//! The trees that an action's label keeps of a part of a written tree: a given action is a written choice; of one that inlining added, the
//! record says which symbols of that choice were inlined, and by which actions.

ghost use Rattle.std.specs.Prelude.{◌∷◌, [], ℕ, IfOk};
ghost use Rattle.lalrpop_grammar.specs.Views.{origin_view};
ghost use Rattle.lalrpop_grammar_language.specs.Expansion.{Nonterminal};
ghost use Rattle.lalrpop_grammar_language.specs.Labels.{Label};
ghost use Rattle.lalrpop_run_trees.specs.ActionLabels.{ChoiceInlinings, ChoiceLabel, TellEntries, TellsLabel};
ghost use Rattle.lalrpop_run_trees.specs.ActionLabels.{all_kept};
ghost use Rattle.lalrpop_run_trees.specs.PartViews.{AllWithin, LieWithin, TellsAllKept, TellsKept};
ghost use Rattle.lalrpop_run_trees.specs.declared.tree_parts.tree_part.TreePart.{TreePart};

use crate::records::record_of;
use crate::tree_parts::taking::{alone, parts_by_choice};
use crate::tree_parts::tree_part::TreePart;
use lalrpop_grammar::Origin;
use lalrpop_grammar_repr::{ActionFn, ActionFnDefn, InlinedSymbol};
use std::alloc::{AllocError, Global};

/// What is kept of the part by a symbol of a record whose actions are below this one: where the symbol was kept, the part; where it was
/// inlined, what the label of its action keeps.
#[cycle(recorded)]
fn parts_of_symbol<'t>(
    alloc: Global,
    actions: &[ActionFnDefn],
    origins: &[Origin],
    symbol: &InlinedSymbol,
    below: usize,
    part: TreePart<'t>,
) -> Result<Option<Vec<TreePart<'t>>>, AllocError>
    ensures kept { (count : ℕ) (entries : ChoiceInlinings) → TellEntries actions.now origins.now below (symbol.now ∷ []) count entries
        → IfOk result (TellsAllKept entries (part.entry ∷ [])) }
    ensures within { IfOk result (LieWithin part.entry) }
{
    match symbol {
        InlinedSymbol::Original(_) => Ok(Some(alone(alloc, part)?)),
        InlinedSymbol::Inlined(action, side) => {
            if action.index() < below {
                parts_by_action(alloc, actions, origins, *action, side.len(), part)
            } else {
                // No record names an action that came after it.
                Ok(None)
            }
        }
    }
}

/// What is kept of the parts, one for each symbol of a record whose actions are below this one.
#[cycle(recorded)]
fn parts_of_record<'t>(
    alloc: Global,
    actions: &[ActionFnDefn],
    origins: &[Origin],
    symbols: &[InlinedSymbol],
    below: usize,
    parts: &[TreePart<'t>],
) -> Result<Option<Vec<TreePart<'t>>>, AllocError>
    ensures kept { (count : ℕ) (entries : ChoiceInlinings) → TellEntries actions.now origins.now below symbols.now count entries
        → IfOk result (TellsAllKept entries parts.now) }
    ensures within { (whole : TreePart) → AllWithin whole parts.now → IfOk result (LieWithin whole) }
{
    if parts.len() != symbols.len() {
        return Ok(None);
    }
    let mut kept = Vec::new(alloc);
    for (place, symbol) in symbols.iter().enumerate() {
        match parts_of_symbol(alloc, actions, origins, symbol, below, parts[place])? {
            Some(mut more) => kept.append(&mut more)?,
            None => return Ok(None),
        }
    }
    Ok(Some(kept))
}

/// The children of the part by a written choice with so many symbols.
fn parts_by_count<'t>(
    alloc: Global,
    origin: &Origin,
    count: usize,
    part: TreePart<'t>,
) -> Result<Option<Vec<TreePart<'t>>>, AllocError>
    ensures kept { (x : Nonterminal) → IfOk result (TellsKept (Label.choose x (origin_view origin.now) (all_kept count)) part.entry) }
    ensures within { IfOk result (LieWithin part.entry) }
{
    match parts_by_choice(alloc, origin, part)? {
        Some(parts) if parts.len() == count => Ok(Some(parts)),
        _ => Ok(None),
    }
}

/// What the label of the action, of a production with so many symbols, keeps of the part; none where the part isn't a tree by that label.
///
/// # Errors
///
/// Want of memory.
#[cycle(recorded)]
pub fn parts_by_action<'t>(
    alloc: Global,
    actions: &[ActionFnDefn],
    origins: &[Origin],
    action: ActionFn,
    count: usize,
    part: TreePart<'t>,
) -> Result<Option<Vec<TreePart<'t>>>, AllocError>
    ensures kept { (label : ChoiceLabel) → TellsLabel actions.now origins.now action.0 count label
        → IfOk result (TellsKept label part.entry) }
    ensures within { IfOk result (LieWithin part.entry) }
{
    if let Some(origin) = origins.get(action.index()) {
        return parts_by_count(alloc, origin, count, part);
    }
    match record_of(actions, action) {
        Some(record) if record.action.index() < action.index() => {
            let symbols = record.symbols.as_slice();
            let outer = record.action;
            match parts_by_action(alloc, actions, origins, outer, symbols.len(), part)? {
                Some(parts) => parts_of_record(
                    alloc,
                    actions,
                    origins,
                    symbols,
                    action.index(),
                    parts.as_slice(),
                ),
                None => Ok(None),
            }
        }
        // It isn't one that inlining makes.
        _ => Ok(None),
    }
}
