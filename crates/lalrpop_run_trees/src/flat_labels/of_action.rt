//! The flat label of an action.

ghost use Rattle.std.specs.Prelude.{◌≡◌, ◌∷◌, IfOk, replicate};
ghost use Rattle.lalrpop_run_trees.specs.FlatLabels.{entry_marks, flat_of, marks_in, put_marks};
ghost use Rattle.lalrpop_run_trees.specs.declared.flat_labels.mark.LabelMark.TheVariants as marks;

use crate::flat_labels::mark::LabelMark;
use crate::records::record_of;
use lalrpop_grammar_repr::{ActionFn, ActionFnDefn, InlinedSymbol};
use std::alloc::{AllocError, Global};

/// So many symbols, each of them kept, behind a given action.
fn given_marks(alloc: Global, number: usize, count: usize) -> Result<Vec<LabelMark>, AllocError>
    ensures { IfOk result (λ made. made.items ≡ marks.Given number ∷ replicate count marks.Kept) }
{
    let mut made = Vec::new(alloc);
    made.push(LabelMark::Given(number))?;
    for _ in 0..count {
        made.push(LabelMark::Kept)?;
    }
    Ok(made)
}

/// What stands in a flat label for a symbol of a record whose actions are below this one.
#[cycle(flat)]
fn marks_of_symbol(
    alloc: Global,
    actions: &[ActionFnDefn],
    given: usize,
    symbol: &InlinedSymbol,
    below: usize,
) -> Result<Option<Vec<LabelMark>>, AllocError>
    ensures { IfOk result (λ made. marks_in made ≡ entry_marks (flat_of actions.now given) below symbol.now) }
{
    match symbol {
        InlinedSymbol::Original(_) => {
            let mut made = Vec::new(alloc);
            made.push(LabelMark::Kept)?;
            Ok(Some(made))
        }
        InlinedSymbol::Inlined(action, side) => {
            if action.index() < below {
                flat_label(alloc, actions, given, *action, side.len())
            } else {
                // No record names an action that came after it.
                Ok(None)
            }
        }
    }
}

/// The flat label with what stands for the symbols of a record put in: each symbol that was kept takes the next one.
#[cycle(flat)]
fn marks_of_record(
    alloc: Global,
    actions: &[ActionFnDefn],
    given: usize,
    symbols: &[InlinedSymbol],
    below: usize,
    outer: &[LabelMark],
) -> Result<Option<Vec<LabelMark>>, AllocError>
    ensures { IfOk result (λ made. marks_in made ≡ put_marks (flat_of actions.now given) below symbols.now outer.now) }
{
    let mut made = Vec::new(alloc);
    let mut next = 0;
    for mark in outer {
        match mark {
            LabelMark::Given(number) => made.push(LabelMark::Given(*number))?,
            LabelMark::Kept => {
                let Some(symbol) = symbols.get(next) else {
                    return Ok(None);
                };
                let Some(mut more) = marks_of_symbol(alloc, actions, given, symbol, below)? else {
                    return Ok(None);
                };
                made.append(&mut more)?;
                next += 1;
            }
        }
    }
    if next < symbols.len() {
        Ok(None)
    } else {
        Ok(Some(made))
    }
}

/// The flat label of the action of a production with so many symbols, where the first `given` actions are given ones and the others made by
/// inlining; none where it isn't an action that inlining makes.
///
/// # Errors
///
/// Want of memory.
#[cycle(flat)]
pub fn flat_label(
    alloc: Global,
    actions: &[ActionFnDefn],
    given: usize,
    action: ActionFn,
    count: usize,
) -> Result<Option<Vec<LabelMark>>, AllocError>
    ensures { IfOk result (λ made. marks_in made ≡ flat_of actions.now given action.0 count) }
{
    let number = action.index();
    if number < given {
        return Ok(Some(given_marks(alloc, number, count)?));
    }
    match record_of(actions, action) {
        Some(record) if record.action.index() < number => {
            let symbols = record.symbols.as_slice();
            match flat_label(alloc, actions, given, record.action, symbols.len())? {
                Some(outer) => marks_of_record(
                    alloc,
                    actions,
                    given,
                    symbols,
                    number,
                    outer.as_slice(),
                ),
                None => Ok(None),
            }
        }
        _ => Ok(None),
    }
}
