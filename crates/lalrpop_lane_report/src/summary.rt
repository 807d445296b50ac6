//! The lines of a report that stand before its states.

ghost use Rattle.std.specs.Prelude.{◌≡◌, ◌++◌, ◌-◌, IfOk, OnOk, codes, decimal, filter, length, map, replicate, string_bytes};
ghost use Rattle.lalrpop_lane_report.specs.Reports.{
  behind_blanks,
  constructed_line,
  count_line,
  head_lines,
  is_with_shift,
  section_lines,
  states_of_conflicts,
  summary_of_conflicts,
};
ghost use Rattle.lalrpop_lane_report.specs.ShownStates.{shown_action};

use crate::lines::push_number;
use lalrpop_lr1_core::{Action, Conflict};
use std::alloc::{AllocError, Global};
use std::collections::BTreeSet;

/// Appends the heading of a section.
pub(crate) fn push_section(title: &str, out: &mut String) -> Result<(), AllocError>
    ensures { OnOk result (string_bytes out.new ≡ string_bytes out.old ++ section_lines title.now) }
{
    out.push_str("\n")?;
    out.push_str(title)?;
    out.push_str("\n----------------------------------------\n")
}

/// Appends the lines before the summary.
pub(crate) fn push_head(out: &mut String) -> Result<(), AllocError>
    ensures { OnOk result (string_bytes out.new ≡ string_bytes out.old ++ head_lines) }
{
    out.push_str("Lalrpop Report File\n========================================\n")?;
    push_section("Summary", out)?;
    out.push_str("\n")
}

/// Appends how many states there are.
pub(crate) fn push_constructed(
    alloc: Global,
    count: usize,
    out: &mut String,
) -> Result<(), AllocError>
    ensures { OnOk result (string_bytes out.new ≡ string_bytes out.old ++ constructed_line count) }
{
    out.push_str("Constructed ")?;
    push_number(alloc, count, out)?;
    out.push_str(" states\n")
}

/// How many of the conflicts are with shifts.
fn count_with_shifts<L>(conflicts: &[Conflict<'_, L>]) -> usize
    ensures { result ≡ length (filter (λ c. is_with_shift (shown_action c.action)) conflicts.now) }
{
    let mut count = 0;
    for conflict in conflicts {
        if is_shift(&conflict.action) {
            count += 1;
        }
    }
    count
}

/// Whether the action is a shift.
fn is_shift(action: &Action<'_>) -> bool
    ensures { result ≡ is_with_shift (shown_action action.now) }
{
    match action {
        Action::Shift(_, _) => true,
        Action::Reduce(_) => false,
    }
}

/// Appends the line of a count, where it isn't 0.
fn push_count(alloc: Global, title: &str, count: usize, out: &mut String) -> Result<(), AllocError>
    ensures { OnOk result (string_bytes out.new ≡ string_bytes out.old ++ count_line title.now count) }
{
    if count == 0 {
        return Ok(());
    }
    out.push_str("    ")?;
    out.push_str(title)?;
    push_number(alloc, count, out)?;
    out.push_str("\n")
}

/// The states of the conflicts.
fn conflicting_states<L>(
    alloc: Global,
    conflicts: &[Conflict<'_, L>],
) -> Result<BTreeSet<usize>, AllocError>
    ensures { IfOk result (λ states. states.keys ≡ states_of_conflicts (map (λ c. c.state.0) conflicts.now)) }
{
    let mut states = BTreeSet::new(alloc);
    for conflict in conflicts {
        states.insert(conflict.state.0)?;
    }
    Ok(states)
}

/// Appends the numbers, each behind a blank.
fn push_numbers(
    alloc: Global,
    numbers: &BTreeSet<usize>,
    out: &mut String,
) -> Result<(), AllocError>
    ensures { OnOk result (string_bytes out.new ≡ string_bytes out.old ++ behind_blanks (map decimal numbers.now.keys)) }
{
    for number in numbers.iter() {
        out.push_str(" ")?;
        push_number(alloc, *number, out)?;
    }
    Ok(())
}

/// Appends which states have conflicts.
fn push_conflicting_states<L>(
    alloc: Global,
    conflicts: &[Conflict<'_, L>],
    out: &mut String,
) -> Result<(), AllocError>
    ensures { OnOk result (string_bytes out.new ≡ string_bytes out.old ++ codes "States with conflicts: "
        ++ behind_blanks (map decimal (states_of_conflicts (map (λ c. c.state.0) conflicts.now))) ++ codes "\n") }
{
    let states = conflicting_states(alloc, conflicts)?;
    out.push_str("States with conflicts: ")?;
    push_numbers(alloc, &states, out)?;
    out.push_str("\n")
}

/// Appends how many conflicts there are, and of which kinds.
fn push_counts<L>(
    alloc: Global,
    conflicts: &[Conflict<'_, L>],
    out: &mut String,
) -> Result<(), AllocError>
    ensures { let shifts = length (filter (λ c. is_with_shift (shown_action c.action)) conflicts.now) in
        OnOk result (string_bytes out.new ≡ string_bytes out.old ++ codes "Has " ++ decimal (length conflicts.now) ++ codes " conflicts\n"
        ++ count_line (codes "shift/reduce:  ") shifts
        ++ count_line (codes "reduce/reduce: ") (length conflicts.now - shifts)) }
{
    let shifts = count_with_shifts(conflicts);
    out.push_str("Has ")?;
    push_number(alloc, conflicts.len(), out)?;
    out.push_str(" conflicts\n")?;
    push_count(alloc, "shift/reduce:  ", shifts, out)?;
    push_count(
        alloc,
        "reduce/reduce: ",
        conflicts.len().saturating_sub(shifts),
        out,
    )
}

/// Appends the summary of states with conflicts.
pub(crate) fn push_failure<L>(
    alloc: Global,
    count: usize,
    conflicts: &[Conflict<'_, L>],
    out: &mut String,
) -> Result<(), AllocError>
    ensures { OnOk result (string_bytes out.new ≡ string_bytes out.old ++ summary_of_conflicts count (length conflicts.now)
        (length (filter (λ c. is_with_shift (shown_action c.action)) conflicts.now))
        (states_of_conflicts (map (λ c. c.state.0) conflicts.now))) }
{
    out.push_str("Failure\n")?;
    push_constructed(alloc, count, out)?;
    push_counts(alloc, conflicts, out)?;
    push_conflicting_states(alloc, conflicts, out)
}
