//! A state by other numbers.

ghost use Rattle.std.specs.Prelude.{◌≡◌, ◌<◌, All, IfOk, length};
ghost use Rattle.lalrpop_lane.specs.GotoNumbers.{state_by_numbers};

use lalrpop_lr1_build::collapse::renumber_edges;
use lalrpop_lr1_core::{Lr1State, StateIndex};
use std::alloc::{AllocError, Global};

/// The state with this number, its edges by the numbers.
pub(crate) fn renumber_state<'g>(
    alloc: Global,
    numbers: &[usize],
    number: usize,
    mut state: Lr1State<'g>,
) -> Result<Lr1State<'g>, AllocError>
    requires shifts { All (λ e. e.1.0 < length numbers.now) state.shifts }
    requires gotos { All (λ e. e.1.0 < length numbers.now) state.gotos }
    ensures { IfOk result (λ new. new ≡ state_by_numbers numbers.now number state.entry) }
{
    let shifts = renumber_edges(alloc, &state.shifts, numbers)?;
    let gotos = renumber_edges(alloc, &state.gotos, numbers)?;
    state.index = StateIndex(number);
    state.shifts = shifts;
    state.gotos = gotos;
    Ok(state)
}
