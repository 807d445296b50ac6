//! The lines of a state: its items, reductions, edges and conflicts.

ghost use Rattle.std.specs.Prelude.{◌≡◌, ◌++◌, OnOk, codes, decimal, filter, flat_map, map, max, nat_eq, string_bytes};
ghost use Rattle.lalrpop_grammar_symbols.specs.Texts.{terminal_text};
ghost use Rattle.lalrpop_grammar_symbols.specs.Views.{terminal_view};
ghost use Rattle.lalrpop_lane_report.specs.Reports.{
  action_line,
  action_name,
  filled_to,
  goto_line,
  item_lines,
  lines_of_conflict,
  printed_length,
  reduction_lines,
  reductions_part,
  shift_line,
  state_lines,
  widest,
};
ghost use Rattle.lalrpop_lane_report.specs.ShownStates.{
  ShownAction,
  shown_action,
  shown_conflict_of,
  shown_goto,
  shown_item,
  shown_production,
  shown_reduction,
  shown_shift,
  shown_state,
};

use crate::display_len::HasDisplayLen;
use crate::lines::{
    push_filled_terminal, push_goto, push_item, push_lookahead, push_number, push_production,
    push_reduction, push_shift,
};
use crate::lookahead_printer::LookaheadPrinter;
use lalrpop_grammar_repr::{Map, Production, TerminalSet};
use lalrpop_grammar_symbols::{NonterminalString, TerminalString};
use lalrpop_lr1_core::{Action, Conflict, Item, State, StateIndex};
use std::alloc::{AllocError, Global};

/// How wide the widest nonterminal of the items is.
fn widest_of_items<L>(items: &[Item<'_, L>]) -> usize
    ensures { result ≡ widest (map (λ i. i.production.now.nonterminal.0) items.now) }
{
    let mut width = 0;
    for item in items {
        width = width.max(HasDisplayLen::display_len(&item.production.nonterminal));
    }
    width
}

/// How wide the widest key of the map is.
fn widest_key<K: Ord + HasDisplayLen>(edges: &Map<K, StateIndex>) -> usize
    ensures { result ≡ widest (map (λ e. K.printed e.0) edges.now) }
{
    let mut width = 0;
    for (key, _) in edges.iter() {
        width = width.max(HasDisplayLen::display_len(key));
    }
    width
}

/// Appends the lines of the items.
fn push_items<L: LookaheadPrinter>(
    alloc: Global,
    items: &[Item<'_, L>],
    terminals: &TerminalSet,
    out: &mut String,
) -> Result<(), AllocError>
    ensures { OnOk result (string_bytes out.new ≡ string_bytes out.old
        ++ flat_map (λ i. item_lines (widest (map (λ j. j.production.now.nonterminal.0) items.now))
        (shown_item (L.token_texts terminals.now) i)) items.now) }
{
    let width = widest_of_items(items);
    for item in items {
        push_item(alloc, item, width, terminals, out)?;
    }
    Ok(())
}

/// Appends the lines of each of the reductions.
fn push_each_reduction<L: LookaheadPrinter>(
    alloc: Global,
    reductions: &[(L, &Production)],
    terminals: &TerminalSet,
    out: &mut String,
) -> Result<(), AllocError>
    ensures { OnOk result (string_bytes out.new ≡ string_bytes out.old
        ++ flat_map (λ r. reduction_lines (shown_reduction (L.token_texts terminals.now) r)) reductions.now) }
{
    for reduction in reductions {
        push_reduction(alloc, reduction, terminals, out)?;
    }
    Ok(())
}

/// Appends the lines of the reductions, where there are some.
fn push_reductions<L: LookaheadPrinter>(
    alloc: Global,
    reductions: &[(L, &Production)],
    terminals: &TerminalSet,
    out: &mut String,
) -> Result<(), AllocError>
    ensures { OnOk result (string_bytes out.new ≡ string_bytes out.old
        ++ reductions_part (map (shown_reduction (L.token_texts terminals.now)) reductions.now)) }
{
    if reductions.is_empty() {
        return Ok(());
    }
    out.push_str("\n")?;
    push_each_reduction(alloc, reductions, terminals, out)
}

/// Appends the lines of the shifts, their terminals filled up to the width.
fn push_shifts(
    alloc: Global,
    shifts: &Map<TerminalString, StateIndex>,
    width: usize,
    out: &mut String,
) -> Result<(), AllocError>
    ensures { OnOk result (string_bytes out.new ≡ string_bytes out.old
        ++ flat_map (λ e. shift_line width (shown_shift e)) shifts.now) }
{
    for (terminal, target) in shifts.iter() {
        push_shift(alloc, terminal, *target, width, out)?;
    }
    Ok(())
}

/// Appends the lines of the gotos, their names filled up to the width.
fn push_gotos(
    alloc: Global,
    gotos: &Map<NonterminalString, StateIndex>,
    width: usize,
    out: &mut String,
) -> Result<(), AllocError>
    ensures { OnOk result (string_bytes out.new ≡ string_bytes out.old
        ++ flat_map (λ e. goto_line width (shown_goto e)) gotos.now) }
{
    for (name, target) in gotos.iter() {
        push_goto(alloc, name, *target, width, out)?;
    }
    Ok(())
}

/// Appends the lines of the shifts and of the gotos, all symbols filled up to the widest.
fn push_edges(
    alloc: Global,
    shifts: &Map<TerminalString, StateIndex>,
    gotos: &Map<NonterminalString, StateIndex>,
    out: &mut String,
) -> Result<(), AllocError>
    ensures { let width = max (widest (map (λ e. terminal_text (terminal_view e.0)) shifts.now))
        (widest (map (λ e. e.0.0) gotos.now)) in
        OnOk result (string_bytes out.new ≡ string_bytes out.old ++ codes "\n"
        ++ flat_map (λ e. shift_line width (shown_shift e)) shifts.now ++ codes "\n"
        ++ flat_map (λ e. goto_line width (shown_goto e)) gotos.now) }
{
    let width = widest_key(shifts).max(widest_key(gotos));
    out.push_str("\n")?;
    push_shifts(alloc, shifts, width, out)?;
    out.push_str("\n")?;
    push_gotos(alloc, gotos, width, out)
}

/// Appends the line of a shift that conflicts, its terminal filled up to the width.
fn push_other_shift(
    alloc: Global,
    terminal: &TerminalString,
    target: StateIndex,
    width: usize,
    out: &mut String,
) -> Result<(), AllocError>
    ensures { OnOk result (string_bytes out.new ≡ string_bytes out.old
        ++ (codes "        shift     " ++ filled_to width (terminal_text (terminal_view terminal.now)) ++ codes "    shift and goto "
        ++ decimal target.0 ++ codes "\n")) }
{
    out.push_str("        shift     ")?;
    push_filled_terminal(alloc, terminal, width, out)?;
    out.push_str("    shift and goto ")?;
    push_number(alloc, target.0, out)?;
    out.push_str("\n")
}

/// How wide the terminal of a shift is that conflicts with the production's reduction.
fn width_beside(terminal: &TerminalString, production: &Production) -> usize
    ensures { result ≡ max (printed_length (terminal_text (terminal_view terminal.now))) (printed_length production.now.nonterminal.0) }
{
    HasDisplayLen::display_len(terminal).max(HasDisplayLen::display_len(&production.nonterminal))
}

/// Appends the line of a shift that conflicts with the production's reduction.
fn push_conflicting_shift(
    alloc: Global,
    production: &Production,
    terminal: &TerminalString,
    target: StateIndex,
    out: &mut String,
) -> Result<(), AllocError>
    ensures { OnOk result (string_bytes out.new ≡ string_bytes out.old
        ++ action_line (shown_production production.now) (ShownAction.shifts (shown_shift (terminal.now, target)))) }
{
    push_other_shift(
        alloc,
        terminal,
        target,
        width_beside(terminal, production),
        out,
    )
}

/// Appends the line of the action that conflicts with the production's reduction.
fn push_action(
    alloc: Global,
    production: &Production,
    action: &Action<'_>,
    out: &mut String,
) -> Result<(), AllocError>
    ensures { OnOk result (string_bytes out.new ≡ string_bytes out.old
        ++ action_line (shown_production production.now) (shown_action action.now)) }
{
    match action {
        Action::Shift(terminal, target) => {
            push_conflicting_shift(alloc, production, terminal, *target, out)
        }
        Action::Reduce(other) => {
            out.push_str("        reduction ")?;
            push_production(alloc, other, out)?;
            out.push_str("\n")
        }
    }
}

/// Between which actions the conflict is.
fn name_of_conflict(action: &Action<'_>) -> &'static str
    ensures { result.now ≡ action_name (shown_action action.now) }
{
    match action {
        Action::Shift(_, _) => "shift/reduce conflict",
        Action::Reduce(_) => "reduce/reduce conflict",
    }
}

/// Appends the lines of the conflict.
fn push_conflict<L: LookaheadPrinter>(
    alloc: Global,
    conflict: &Conflict<'_, L>,
    terminals: &TerminalSet,
    out: &mut String,
) -> Result<(), AllocError>
    ensures { OnOk result (string_bytes out.new ≡ string_bytes out.old
        ++ lines_of_conflict (shown_conflict_of (L.token_texts terminals.now) conflict.now)) }
{
    out.push_str("\n    ")?;
    out.push_str(name_of_conflict(&conflict.action))?;
    out.push_str("\n        reduction ")?;
    push_production(alloc, conflict.production, out)?;
    out.push_str("\n")?;
    push_action(alloc, conflict.production, &conflict.action, out)?;
    push_lookahead(alloc, &conflict.lookahead, terminals, out)
}

/// Appends the lines of those of the conflicts that are in the state.
fn push_conflicts<L: LookaheadPrinter>(
    alloc: Global,
    conflicts: &[Conflict<'_, L>],
    state: StateIndex,
    terminals: &TerminalSet,
    out: &mut String,
) -> Result<(), AllocError>
    ensures { OnOk result (string_bytes out.new ≡ string_bytes out.old
        ++ flat_map lines_of_conflict (filter (λ c. nat_eq c.state state.0)
        (map (shown_conflict_of (L.token_texts terminals.now)) conflicts.now))) }
{
    for conflict in conflicts {
        if conflict.state == state {
            push_conflict(alloc, conflict, terminals, out)?;
        }
    }
    Ok(())
}

/// Appends the line that a state begins with.
fn push_opening(alloc: Global, index: StateIndex, out: &mut String) -> Result<(), AllocError>
    ensures { OnOk result (string_bytes out.new ≡ string_bytes out.old ++ codes "\nState " ++ decimal index.0 ++ codes " {\n") }
{
    out.push_str("\nState ")?;
    push_number(alloc, index.0, out)?;
    out.push_str(" {\n")
}

/// Appends the lines of the state's items and reductions.
fn push_held<L: LookaheadPrinter>(
    alloc: Global,
    state: &State<'_, L>,
    terminals: &TerminalSet,
    out: &mut String,
) -> Result<(), AllocError>
    ensures { let items = map (shown_item (L.token_texts terminals.now)) state.now.items.vec in
        OnOk result (string_bytes out.new ≡ string_bytes out.old
        ++ flat_map (item_lines (widest (map (λ i. i.left) items))) items
        ++ reductions_part (map (shown_reduction (L.token_texts terminals.now)) state.now.reductions)) }
{
    push_items(alloc, state.items.vec.as_slice(), terminals, out)?;
    push_reductions(alloc, state.reductions.as_slice(), terminals, out)
}

/// Appends the lines of the state, its conflicts among them.
pub(crate) fn push_state<L: LookaheadPrinter>(
    alloc: Global,
    state: &State<'_, L>,
    conflicts: &[Conflict<'_, L>],
    terminals: &TerminalSet,
    out: &mut String,
) -> Result<(), AllocError>
    ensures { OnOk result (string_bytes out.new ≡ string_bytes out.old
        ++ state_lines (map (shown_conflict_of (L.token_texts terminals.now)) conflicts.now)
        (shown_state (L.token_texts terminals.now) state.now)) }
{
    push_opening(alloc, state.index, out)?;
    push_held(alloc, state, terminals, out)?;
    push_edges(alloc, &state.shifts, &state.gotos, out)?;
    push_conflicts(alloc, conflicts, state.index, terminals, out)?;
    out.push_str("}\n")
}

/// Appends the lines of the states.
pub(crate) fn push_states<L: LookaheadPrinter>(
    alloc: Global,
    states: &[State<'_, L>],
    conflicts: &[Conflict<'_, L>],
    terminals: &TerminalSet,
    out: &mut String,
) -> Result<(), AllocError>
    ensures { OnOk result (string_bytes out.new ≡ string_bytes out.old
        ++ flat_map (state_lines (map (shown_conflict_of (L.token_texts terminals.now)) conflicts.now))
        (map (shown_state (L.token_texts terminals.now)) states.now)) }
{
    for state in states {
        push_state(alloc, state, conflicts, terminals, out)?;
    }
    Ok(())
}
