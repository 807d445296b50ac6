//! Conflicts of states without lookaheads: each shift with each reduction, and each later reduction with the first.

ghost use Rattle.std.specs.Prelude.{◌≡◌, ◌++◌, OnOk, flat_map, map};
ghost use Rattle.lalrpop_lr1_core.specs.Conflicts.{first_with_later, later_with_first, shift_with_any, shifts_with_any};

use crate::conflict::{Action, Conflict};
use crate::lookahead::Lookahead;
use crate::state::State;
use crate::state_index::StateIndex;
use lalrpop_grammar_repr::{Map, Production, TerminalSet};
use lalrpop_grammar_symbols::TerminalString;
use lalrpop_sets::Nil;
use std::alloc::{AllocError, Global};
use std::fmt::{self, Formatter, Write};

impl Lookahead for Nil {
    ghost use Rattle.std.specs.Prelude.{[], Some};
    ghost use Rattle.lalrpop_lr1_core.specs.Conflicts.{nil_conflicts};
    ghost use Rattle.lalrpop_lr1_core.specs.Views.{nil_lookahead};

    ghost look = { λ _. nil_lookahead };

    ghost suffix = { λ _. Some [] };

    ghost conflicts_in = { λ _. nil_conflicts };

    fn fmt_as_item_suffix<W: Write>(&self, _: &mut Formatter<W>) -> fmt::Result {
        Ok(())
    }

    fn conflicts<'g>(
        alloc: Global,
        _: &TerminalSet,
        state: &State<'g, Nil>,
    ) -> Result<Vec<Conflict<'g, Nil>>, AllocError> {
        let mut conflicts = Vec::new(alloc);
        add_all_shifts(
            state.index,
            &state.shifts,
            state.reductions.as_slice(),
            &mut conflicts,
        )?;
        add_later(state.index, state.reductions.as_slice(), &mut conflicts)?;
        Ok(conflicts)
    }

    fn try_clone(&self) -> Result<Nil, AllocError> {
        Ok(Nil)
    }
}

/// Adds the conflict of each shift with each reduction.
fn add_all_shifts<'g>(
    state: StateIndex,
    shifts: &Map<TerminalString, StateIndex>,
    reductions: &[(Nil, &'g Production)],
    conflicts: &mut Vec<Conflict<'g, Nil>>,
) -> Result<(), AllocError>
    ensures { OnOk result (conflicts.new.items
        ≡ conflicts.old.items ++ flat_map (shifts_with_any state reductions.now) shifts.now) }
{
    for (terminal, target) in shifts.iter() {
        add_any(state, terminal, *target, reductions, conflicts)?;
    }
    Ok(())
}

/// Adds the conflict of the shift with each reduction.
fn add_any<'g>(
    state: StateIndex,
    terminal: &TerminalString,
    target: StateIndex,
    reductions: &[(Nil, &'g Production)],
    conflicts: &mut Vec<Conflict<'g, Nil>>,
) -> Result<(), AllocError>
    ensures { OnOk result (conflicts.new.items
        ≡ conflicts.old.items ++ map (shift_with_any state (terminal.now, target)) reductions.now) }
{
    for reduction in reductions {
        conflicts.push(Conflict {
            state,
            lookahead: Nil,
            production: reduction.1,
            action: Action::Shift(terminal.try_clone()?, target),
        })?;
    }
    Ok(())
}

/// Adds the conflict of each later reduction with the first.
fn add_later<'g>(
    state: StateIndex,
    reductions: &[(Nil, &'g Production)],
    conflicts: &mut Vec<Conflict<'g, Nil>>,
) -> Result<(), AllocError>
    ensures { OnOk result (conflicts.new.items
        ≡ conflicts.old.items ++ first_with_later state reductions.now) }
{
    let Some((first, later)) = reductions.split_first() else {
        return Ok(());
    };
    add_each_later(state, first, later, conflicts)
}

/// Adds the conflict of each of the reductions with the first.
fn add_each_later<'g>(
    state: StateIndex,
    first: &(Nil, &'g Production),
    later: &[(Nil, &'g Production)],
    conflicts: &mut Vec<Conflict<'g, Nil>>,
) -> Result<(), AllocError>
    ensures { OnOk result (conflicts.new.items
        ≡ conflicts.old.items ++ map (later_with_first state first.now.1) later.now) }
{
    for reduction in later {
        conflicts.push(Conflict {
            state,
            lookahead: Nil,
            production: reduction.1,
            action: Action::Reduce(first.1),
        })?;
    }
    Ok(())
}
