//! Cores of states: their items without lookaheads, and the numbers of these.

ghost use Rattle.std.specs.Prelude.{◌≡◌, [], IfOk, map};
ghost use Rattle.lalrpop_lr1_theory.specs.JoinedStates.{AreNumbersAsSeen};
ghost use Rattle.lalrpop_lr1_build.specs.StateCores.{items_core, listed_core, core_in_state};

use indexmap::IndexSet;
use lalrpop_grammar_repr::Production;
use lalrpop_grammar_symbols::List;
use lalrpop_lr1_core::{Lr1Item, Lr1State};
use std::alloc::{AllocError, Global};

/// The items without their lookaheads, in order.
fn core_of<'g>(
    alloc: Global,
    items: &[Lr1Item<'g>],
) -> Result<List<(&'g Production, usize)>, AllocError>
    ensures { IfOk result (λ core. listed_core core ≡ items_core items.now) }
{
    let mut core = List::new(alloc);
    for item in items {
        core.push((item.production, item.index))?;
    }
    Ok(core)
}

/// For each state the number of its core, where no core is known at first: these are put into the set.
fn number_cores<'g>(
    alloc: Global,
    states: &[Lr1State<'g>],
    cores: &mut IndexSet<List<(&'g Production, usize)>>,
) -> Result<Vec<usize>, AllocError>
    requires { cores.old.keys ≡ [] }
    ensures { IfOk result (λ numbers. AreNumbersAsSeen (map core_in_state states.now) numbers.items) }
{
    let mut numbers = Vec::new(alloc);
    for state in states {
        let core = core_of(alloc, state.items.vec.as_slice())?;
        let (number, _) = cores.insert_full(core)?;
        numbers.push(number)?;
    }
    Ok(numbers)
}

/// For each state the number of its core. They are numbered as they are first seen.
pub(crate) fn core_numbers(alloc: Global, states: &[Lr1State<'_>]) -> Result<Vec<usize>, AllocError>
    ensures { IfOk result (λ numbers. AreNumbersAsSeen (map core_in_state states.now) numbers.items) }
{
    let mut cores = IndexSet::new(alloc);
    number_cores(alloc, states, &mut cores)
}
