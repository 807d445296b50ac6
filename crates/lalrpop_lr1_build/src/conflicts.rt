//! The conflicts of states, for both lookaheads by one body.

ghost use Rattle.std.specs.Prelude.{◌≡◌, ◌++◌, IfOk, OnOk, flat_map};

use lalrpop_grammar_repr::TerminalSet;
use lalrpop_lr1_core::{Conflict, Lookahead, State};
use std::alloc::{AllocError, Global};

/// Adds the conflicts.
fn add_conflicts<'g, L: Lookahead>(
    more: Vec<Conflict<'g, L>>,
    conflicts: &mut Vec<Conflict<'g, L>>,
) -> Result<(), AllocError>
    ensures { OnOk result (conflicts.new.items ≡ conflicts.old.items ++ more.entry.items) }
{
    for conflict in more {
        conflicts.push(conflict)?;
    }
    Ok(())
}

/// The conflicts of the states, state by state.
///
/// # Errors
///
/// Memory is refused.
pub fn conflicts_of<'g, L: Lookahead>(
    alloc: Global,
    terminals: &TerminalSet,
    states: &[State<'g, L>],
) -> Result<Vec<Conflict<'g, L>>, AllocError>
    ensures { IfOk result (λ conflicts. conflicts.items ≡ flat_map (L.conflicts_in terminals.now) states.now) }
{
    let mut conflicts = Vec::new(alloc);
    for state in states {
        let more = L::conflicts(alloc, terminals, state)?;
        add_conflicts(more, &mut conflicts)?;
    }
    Ok(conflicts)
}
