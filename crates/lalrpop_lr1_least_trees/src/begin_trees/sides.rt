//! Right sides of derived rules.

ghost use Rattle.std.specs.Prelude.{◌≡◌, ◌<◌, ◌↔◌, IfOk, IsTrue, OnOk, ◌++◌, length, map};
ghost use Rattle.lalrpop_lr1_least_trees.specs.DerivedRules.{AreNames, begin_side as side_beginning, empty_symbol, whole_symbol as whole_of};

use crate::begin_trees::kinds::{begin_symbol, sum, whole_symbol};
use std::alloc::{AllocError, Global};

/// Whether all symbols are names.
pub(crate) fn are_names(names: usize, symbols: &[usize]) -> bool
    ensures { IsTrue result ↔ AreNames names symbols.now }
{
    for symbol in symbols {
        if *symbol >= names {
            return false;
        }
    }
    true
}

/// Adds the numbers that stand for all trees of the symbols.
pub(crate) fn add_whole(
    names: usize,
    symbols: &[usize],
    side: &mut Vec<usize>,
) -> Result<(), AllocError>
    ensures { OnOk result (side.new.items ≡ side.old.items ++ map (whole_of names) symbols.now) }
{
    for symbol in symbols {
        side.push(whole_symbol(names, *symbol)?)?;
    }
    Ok(())
}

/// Adds the numbers that stand for the symbols' trees without leaves.
pub(crate) fn add_empty(
    names: usize,
    symbols: &[usize],
    side: &mut Vec<usize>,
) -> Result<(), AllocError>
    ensures { OnOk result (side.new.items ≡ side.old.items ++ map (empty_symbol names) symbols.now) }
{
    for symbol in symbols {
        side.push(sum(names, *symbol)?)?;
    }
    Ok(())
}

/// The right side by which trees begin with the wanted terminal at a place: without leaves in front of it.
pub(crate) fn begin_side(
    alloc: Global,
    names: usize,
    symbols: &[usize],
    place: usize,
) -> Result<Vec<usize>, AllocError>
    requires { place < length symbols.now }
    ensures { IfOk result (λ side. side.items ≡ side_beginning names symbols.now place) }
{
    let mut side = Vec::new(alloc);
    add_empty(names, &symbols[..place], &mut side)?;
    side.push(begin_symbol(names, symbols[place])?)?;
    add_whole(names, &symbols[place + 1..], &mut side)?;
    Ok(side)
}
