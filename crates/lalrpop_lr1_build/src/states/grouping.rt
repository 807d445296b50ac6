//! The items of a state with the dot moved over the symbol behind it, by the numbers of these symbols.

ghost use Rattle.std.specs.Prelude.{◌≡◌, ◌++◌, ◌∷◌, ◌<◌, ◌+◌, ℕ, [], length, IfOk, OnOk, IsTrue};
ghost use Rattle.lalrpop_lr1_first.specs.FirstNumbers.{symbol_count};
ghost use Rattle.lalrpop_lr1_first.specs.NumberedGrammars.{IsNumberTable};
ghost use Rattle.lalrpop_lr1_build.specs.Shifts.{items_of_group, shifted_items, symbol_behind};

use crate::states::kernel::StateKernel;
use crate::states::kernel_lookahead::KernelLookahead;
use lalrpop_grammar_symbols::List;
use lalrpop_lr1_first::{Numbered, Place};
use std::alloc::{AllocError, Global};

/// The number of the symbol at a place, if one stands there.
fn symbol_at(places: &[Place], place: usize) -> Option<usize>
    ensures { result ≡ symbol_behind places.now place }
{
    match places.get(place) {
        None => None,
        Some(found) => match *found {
            Place::End(_) => None,
            Place::Symbol(symbol) => Some(symbol),
        },
    }
}

/// Whether no symbol stands behind the dot of any of the items.
pub(crate) fn moves_nothing<L: KernelLookahead>(table: &Numbered<'_>, items: &[(usize, L)]) -> bool
    ensures { IsTrue result → (s : ℕ) → shifted_items table.now.places.items s items.now ≡ [] }
{
    for item in items {
        match symbol_at(table.places(), item.0) {
            None => {}
            Some(_) => return false,
        }
    }
    true
}

/// As many groups without items.
fn empty_groups<L: KernelLookahead>(
    alloc: Global,
    count: usize,
) -> Result<Vec<StateKernel<L>>, AllocError>
    ensures count { IfOk result (λ groups. length groups.items ≡ count) }
    ensures empty { IfOk result (λ groups. (s : ℕ) → items_of_group groups.items s ≡ []) }
{
    let mut groups = Vec::new(alloc);
    for _ in 0..count {
        groups.push(StateKernel {
            items: List::new(alloc),
        })?;
    }
    Ok(groups)
}

/// Adds an item to the group.
fn push_item<L: KernelLookahead>(
    group: &mut StateKernel<L>,
    place: usize,
    lookahead: &L,
) -> Result<(), AllocError>
    ensures { OnOk result (group.new.items ≡ group.old.items ++ (place, lookahead.now) ∷ []) }
{
    group.items.push((place, lookahead.try_clone()?))?;
    Ok(())
}

/// Adds the item with its dot moved over the symbol behind it to that symbol's group, if a symbol stands there.
fn add_shifted<L: KernelLookahead>(
    table: &Numbered<'_>,
    place: usize,
    lookahead: &L,
    groups: &mut Vec<StateKernel<L>>,
) -> Result<(), AllocError>
    requires table { IsNumberTable table.now }
    requires count { length groups.old.items ≡ symbol_count table.now }
    ensures count { length groups.new.items ≡ length groups.old.items }
    ensures added { OnOk result ((s : ℕ) → items_of_group groups.new.items s
        ≡ items_of_group groups.old.items s ++ shifted_items table.now.places.items s ((place, lookahead.now) ∷ [])) }
{
    match symbol_at(table.places(), place) {
        None => Ok(()),
        Some(symbol) => {
            push_item(&mut groups[symbol], place + 1, lookahead)?;
            Ok(())
        }
    }
}

/// The items with their dots moved, in order, by the numbers of the symbols over which they moved.
pub(crate) fn group_items<L: KernelLookahead>(
    alloc: Global,
    table: &Numbered<'_>,
    items: &[(usize, L)],
) -> Result<Vec<StateKernel<L>>, AllocError>
    requires { IsNumberTable table.now }
    ensures count { IfOk result (λ groups. length groups.items ≡ symbol_count table.now) }
    ensures groups { IfOk result (λ groups. (s : ℕ) → items_of_group groups.items s
        ≡ shifted_items table.now.places.items s items.now) }
{
    let names = table.names();
    let terminals = table.terminals().all.as_slice();
    let mut groups = empty_groups(alloc, names.len() + terminals.len())?;
    for item in items {
        add_shifted(table, item.0, &item.1, &mut groups)?;
    }
    Ok(groups)
}
