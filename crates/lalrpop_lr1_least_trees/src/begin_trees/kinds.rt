//! Numbers of symbols by what their trees are for.

ghost use Rattle.std.specs.Prelude.{◌≡◌, ◌+◌, IfOk};
ghost use Rattle.lalrpop_lr1_least_trees.specs.DerivedRules.{begin_symbol as begin_of, whole_symbol as whole_of};

use std::alloc::{AllocError, Global};

/// The sum of two numbers.
///
/// # Errors
///
/// It is no number: so many symbols fit in no memory.
pub(crate) fn sum(one: usize, other: usize) -> Result<usize, AllocError>
    ensures { IfOk result (λ all. all ≡ one + other) }
{
    match one.checked_add(other) {
        Some(all) => Ok(all),
        None => Err(AllocError),
    }
}

/// The number that stands for the symbol's trees that begin with the wanted terminal. A terminal has one number alone.
pub(crate) fn begin_symbol(names: usize, symbol: usize) -> Result<usize, AllocError>
    ensures { IfOk result (λ number. number ≡ begin_of names symbol) }
{
    let twice = sum(names, names)?;
    let number = sum(twice, symbol)?;
    Ok(number)
}

/// The number that stands for all trees of the symbol.
pub(crate) fn whole_symbol(names: usize, symbol: usize) -> Result<usize, AllocError>
    ensures { IfOk result (λ number. number ≡ whole_of names symbol) }
{
    if symbol < names {
        return Ok(symbol);
    }
    let number = begin_symbol(names, symbol)?;
    Ok(number)
}
