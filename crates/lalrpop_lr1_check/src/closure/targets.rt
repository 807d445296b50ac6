//! The states to which edges lead.

ghost use Rattle.std.specs.Prelude.{◌≡◌, ◌<◌, ◌↔◌, ℕ, Contains, IfOk, flat_map, length, map, set, true};
ghost use Rattle.lalrpop_lr1_barren.specs.Clauses.{IsMarked};
ghost use Rattle.lalrpop_lr1_check.specs.EdgeTargets.{goto_target, shift_target, targets_of_state};
ghost use Rattle.lalrpop_lr1_check.specs.MarkGains.{marks_with};

use lalrpop_grammar_repr::Map;
use lalrpop_grammar_symbols::{NonterminalString, TerminalString};
use lalrpop_lr1_barren::reachable::{no_marks, set_mark};
use lalrpop_lr1_core::{Lr1State, StateIndex};
use std::alloc::{AllocError, Global};

/// Sets one mark, where there is one with this number.
fn mark_if_there(marks: &mut Vec<bool>, number: usize)
    ensures { marks.new.items ≡ set marks.old.items number true }
{
    if number < marks.len() {
        set_mark(marks, number);
    }
}

/// Marks where terminals lead.
fn mark_shifts(shifts: &Map<TerminalString, StateIndex>, marks: &mut Vec<bool>)
    ensures { marks.new.items ≡ marks_with marks.old.items (map shift_target shifts.now) }
{
    for (_, target) in shifts.iter() {
        mark_if_there(marks, target.0);
    }
}

/// Marks where nonterminals lead.
fn mark_gotos(gotos: &Map<NonterminalString, StateIndex>, marks: &mut Vec<bool>)
    ensures { marks.new.items ≡ marks_with marks.old.items (map goto_target gotos.now) }
{
    for (_, target) in gotos.iter() {
        mark_if_there(marks, target.0);
    }
}

/// Marks where the state leads.
fn mark_targets(state: &Lr1State<'_>, marks: &mut Vec<bool>)
    ensures { marks.new.items ≡ marks_with marks.old.items (targets_of_state state.now) }
{
    mark_shifts(&state.shifts, marks);
    mark_gotos(&state.gotos, marks);
}

/// Marks where each of the states leads.
fn mark_all_targets(states: &[Lr1State<'_>], marks: &mut Vec<bool>)
    ensures { marks.new.items ≡ marks_with marks.old.items (flat_map targets_of_state states.now) }
{
    for state in states {
        mark_targets(state, marks);
    }
}

/// The states to which edges lead.
pub(crate) fn targets_of(alloc: Global, states: &[Lr1State<'_>]) -> Result<Vec<bool>, AllocError>
    ensures { IfOk result (λ marks. (m : ℕ) →
        IsMarked marks.items m ↔ ((m < length states.now) × Contains (flat_map targets_of_state states.now) m)) }
{
    let mut marks = no_marks(alloc, states.len())?;
    mark_all_targets(states, &mut marks);
    Ok(marks)
}
