//! States in the order in which state 0 comes first, then the other states with gotos, then the rest.

ghost use Rattle.std.specs.Prelude.{◌≡◌, ◌++◌, true, false, IfOk, length};
ghost use Rattle.lalrpop_lr1_build.specs.Renumbering.{HaveTargetsWithin};
ghost use Rattle.lalrpop_lane.specs.GotoNumbers.{in_goto_order, with_mark, states_by_numbers};

use crate::edges::renumber_state;
use crate::numbering::{fronts, numbers_of};
use lalrpop_lr1_core::Lr1State;
use std::alloc::{AllocError, Global};

/// The states by the numbers, in their old order.
fn renumber_states<'g>(
    alloc: Global,
    numbers: &[usize],
    states: Vec<Lr1State<'g>>,
) -> Result<Vec<Lr1State<'g>>, AllocError>
    requires count { length numbers.now ≡ length states.items }
    requires targets { HaveTargetsWithin (length numbers.now) states.items }
    ensures { IfOk result (λ new. new.items ≡ states_by_numbers numbers.now numbers.now states.entry.items) }
{
    let mut renumbered = Vec::new(alloc);
    for state in states {
        let place = renumbered.len();
        renumbered.push(renumber_state(alloc, numbers, numbers[place], state)?)?;
    }
    Ok(renumbered)
}

/// Puts the states that are marked before the others.
fn put_marked_first<'g>(
    alloc: Global,
    marks: &[bool],
    states: Vec<Lr1State<'g>>,
) -> Result<Vec<Lr1State<'g>>, AllocError>
    requires { length marks.now ≡ length states.items }
    ensures { IfOk result (λ new. new.items ≡ with_mark true marks.now states.entry.items ++ with_mark false marks.now states.entry.items) }
{
    let mut first = Vec::new(alloc);
    let mut others = Vec::new(alloc);
    for state in states {
        if marks[first.len() + others.len()] {
            first.push(state)?;
        } else {
            others.push(state)?;
        }
    }
    first.append(&mut others)?;
    Ok(first)
}

/// The states with state 0 first, then the others with gotos, then the rest, each by its place, with all edges by the new numbers.
pub(crate) fn goto_order<'g>(
    alloc: Global,
    states: Vec<Lr1State<'g>>,
) -> Result<Vec<Lr1State<'g>>, AllocError>
    requires { HaveTargetsWithin (length states.items) states.items }
    ensures { IfOk result (λ new. new.items ≡ in_goto_order states.entry.items) }
{
    let fronts = fronts(alloc, states.as_slice())?;
    let numbers = numbers_of(alloc, fronts.as_slice())?;
    let renumbered = renumber_states(alloc, numbers.as_slice(), states)?;
    put_marked_first(alloc, fronts.as_slice(), renumbered)
}
