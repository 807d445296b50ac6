//! The numbers of states in the order in which those with gotos come first.

ghost use Rattle.std.specs.Prelude.{◌≡◌, ◌≤◌, ◌||◌, true, length, IfOk};
ghost use Rattle.lalrpop_lane.specs.GotoNumbers.{count_marked, fronts_of, goto_numbers, has_some};

use lalrpop_lr1_core::Lr1State;
use std::alloc::{AllocError, Global};

/// Whether the state is the first, or has gotos.
fn stays_in_front(is_first: bool, state: &Lr1State<'_>) -> bool
    ensures { result ≡ (is_first || has_some state.now.gotos) }
{
    is_first || !state.gotos.is_empty()
}

/// Which of the states stay in front: the first, and those with gotos.
pub(crate) fn fronts(alloc: Global, states: &[Lr1State<'_>]) -> Result<Vec<bool>, AllocError>
    ensures { IfOk result (λ fronts. fronts.items ≡ fronts_of true states.now) }
{
    let mut is_first = true;
    let mut fronts = Vec::new(alloc);
    for state in states {
        fronts.push(stays_in_front(is_first, state))?;
        is_first = false;
    }
    Ok(fronts)
}

/// How many are marked.
fn count_marks(marks: &[bool]) -> usize
    ensures count { result ≡ count_marked marks.now }
    ensures bound { result ≤ length marks.now }
{
    let mut count = 0;
    for mark in marks {
        if *mark {
            count += 1;
        }
    }
    count
}

/// The new number of each state: those in front first, all in their old order.
pub(crate) fn numbers_of(alloc: Global, fronts: &[bool]) -> Result<Vec<usize>, AllocError>
    ensures { IfOk result (λ numbers. numbers.items ≡ goto_numbers fronts.now) }
{
    let mut front = 0;
    let mut rest = count_marks(fronts);
    let mut numbers = Vec::new(alloc);
    for stays in fronts {
        if *stays {
            numbers.push(front)?;
            front += 1;
        } else {
            numbers.push(rest)?;
            rest += 1;
        }
    }
    Ok(numbers)
}
