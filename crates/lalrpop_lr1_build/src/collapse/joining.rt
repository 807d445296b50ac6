//! Items that are joined with others of the same core.

ghost use Rattle.std.specs.Prelude.{◌≡◌, ◌<◌, IfOk, length, map};
ghost use Rattle.lalrpop_lr1_theory.specs.JoinedStates.{AreNumbersAsSeen};
ghost use Rattle.lalrpop_lr1_build.specs.StateCores.{core_in_state};
ghost use Rattle.lalrpop_lr1_build.specs.JoinedItems.{AreJoinedFrom, AreJoinedItems, IsJoinedItem};

use lalrpop_grammar_symbols::List;
use lalrpop_lr1_core::{Lr1Item, Lr1State};
use std::alloc::{AllocError, Global};

/// The item, before all that one of the two is before.
fn join_item<'g>(one: &Lr1Item<'g>, other: &Lr1Item<'g>) -> Result<Lr1Item<'g>, AllocError>
    ensures { IfOk result (λ joined. IsJoinedItem one.now other.now joined) }
{
    let mut lookahead = one.lookahead.try_clone()?;
    lookahead.union_with(&other.lookahead)?;
    Ok(one.with_lookahead(lookahead))
}

/// The items, each joined with that at the same place of the others.
fn join_items<'g>(
    alloc: Global,
    ones: &[Lr1Item<'g>],
    others: &[Lr1Item<'g>],
) -> Result<List<Lr1Item<'g>>, AllocError>
    requires { length ones.now ≡ length others.now }
    ensures { IfOk result (λ joined. AreJoinedItems ones.now others.now joined) }
{
    let mut joined = List::new(alloc);
    for place in 0..ones.len() {
        joined.push(join_item(&ones[place], &others[place])?)?;
    }
    Ok(joined)
}

/// Copies of the items, in order.
fn clone_items<'g>(alloc: Global, items: &[Lr1Item<'g>]) -> Result<List<Lr1Item<'g>>, AllocError>
    ensures { IfOk result (λ copy. copy ≡ items.now) }
{
    let mut copy = List::new(alloc);
    for item in items {
        copy.push(item.try_clone()?)?;
    }
    Ok(copy)
}

/// The items of the state at the place, joined with those of all that have its number.
pub(crate) fn join_alike<'g>(
    alloc: Global,
    states: &[Lr1State<'g>],
    numbers: &[usize],
    place: usize,
) -> Result<List<Lr1Item<'g>>, AllocError>
    requires numbers { AreNumbersAsSeen (map core_in_state states.now) numbers.now }
    requires place { place < length states.now }
    ensures { IfOk result (λ joined. AreJoinedFrom states.now numbers.now place joined) }
{
    let number = numbers[place];
    let mut items = clone_items(alloc, states[place].items.vec.as_slice())?;
    for other in 0..states.len() {
        if numbers[other] == number {
            items = join_items(alloc, items.as_slice(), states[other].items.vec.as_slice())?;
        }
    }
    Ok(items)
}
