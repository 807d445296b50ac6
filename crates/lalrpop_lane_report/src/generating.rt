//! The whole report, as a text and to a writer.

ghost use Rattle.std.specs.Prelude.{◌≡◌, ◌++◌, IfErr, IfOk, OnOk, false, map, true, string_bytes};
ghost use Rattle.lalrpop_lane_report.specs.Reports.{report_of_conflicts, report_of_states, table_lines};
ghost use Rattle.lalrpop_lane_report.specs.declared.generating.ReportError.TheVariants as errors;
ghost use Rattle.lalrpop_lane_report.specs.Sending.{HasBeenSent};
ghost use Rattle.lalrpop_lane_report.specs.ShownStates.{shown_conflict_of, shown_state};
ghost use Rattle.lalrpop_lane_report.specs.TableReports.{IsNoMemory, table_report, token_set_texts};

use crate::lookahead_printer::LookaheadPrinter;
use crate::state_lines::push_states;
use crate::summary::{push_constructed, push_failure, push_head, push_section};
use lalrpop_grammar_repr::TerminalSet;
use lalrpop_grammar_streams::{Sink, write_all};
use lalrpop_lr1_core::{Conflict, Lr1Result, LrResult, State, TableConstructionError, TableFault};
use std::alloc::{AllocError, Global};

/// Why no report was written.
#[derive(Clone, Copy, Debug, PartialEq, Eq)]
pub enum ReportError {
    /// The writer failed.
    Write,
    /// Memory ran out.
    Memory,
}

impl From<AllocError> for ReportError {
    ghost use Rattle.std.specs.Prelude.{◌≡◌};
    ghost use Rattle.lalrpop_lane_report.specs.declared.generating.ReportError.TheVariants.{Memory};

    ghost from_gives = { λ _ error. error ≡ Memory };

    fn from(_: AllocError) -> ReportError {
        ReportError::Memory
    }
}

/// Appends the states, behind the heading of their table.
fn push_table<L: LookaheadPrinter>(
    alloc: Global,
    states: &[State<'_, L>],
    conflicts: &[Conflict<'_, L>],
    terminals: &TerminalSet,
    out: &mut String,
) -> Result<(), AllocError>
    ensures { OnOk result (string_bytes out.new ≡ string_bytes out.old
        ++ table_lines (map (shown_conflict_of (L.token_texts terminals.now)) conflicts.now)
        (map (shown_state (L.token_texts terminals.now)) states.now)) }
{
    push_section("State Table", out)?;
    push_states(alloc, states, conflicts, terminals, out)
}

/// The report of states without conflicts.
fn text_of_states<L: LookaheadPrinter>(
    alloc: Global,
    states: &[State<'_, L>],
    terminals: &TerminalSet,
) -> Result<String, AllocError>
    ensures { IfOk result (λ text. string_bytes text
        ≡ report_of_states (map (shown_state (L.token_texts terminals.now)) states.now)) }
{
    let mut text = String::new(alloc);
    push_head(&mut text)?;
    push_constructed(alloc, states.len(), &mut text)?;
    let conflicts = Vec::new(alloc);
    push_table(alloc, states, conflicts.as_slice(), terminals, &mut text)?;
    Ok(text)
}

/// The report of states with conflicts.
fn text_of_conflicts<L: LookaheadPrinter>(
    alloc: Global,
    error: &TableConstructionError<'_, L>,
    terminals: &TerminalSet,
) -> Result<String, AllocError>
    ensures { IfOk result (λ text. string_bytes text
        ≡ report_of_conflicts (map (shown_state (L.token_texts terminals.now)) error.now.states.items)
        (map (shown_conflict_of (L.token_texts terminals.now)) error.now.conflicts.items)) }
{
    let mut text = String::new(alloc);
    push_head(&mut text)?;
    push_failure(
        alloc,
        error.states.len(),
        error.conflicts.as_slice(),
        &mut text,
    )?;
    push_table(
        alloc,
        error.states.as_slice(),
        error.conflicts.as_slice(),
        terminals,
        &mut text,
    )?;
    Ok(text)
}

/// The report of a construction that didn't run out of memory.
fn text_of_tables<L: LookaheadPrinter>(
    alloc: Global,
    tables: &LrResult<'_, L>,
    terminals: &TerminalSet,
) -> Result<String, AllocError>
    ensures { IfOk result (λ text. string_bytes text ≡ table_report (L.token_texts terminals.now) tables.now) }
{
    match tables {
        Ok(states) => text_of_states(alloc, states.as_slice(), terminals),
        Err(TableFault::Conflicts(error)) => text_of_conflicts(alloc, error, terminals),
        Err(TableFault::Memory) => Ok(String::new(alloc)),
    }
}

/// The report of a construction: a summary, then each state with its items, reductions, shifts, gotos and conflicts, as LALRPOP's
/// report file has them. The construction didn't run out of memory.
///
/// # Errors
///
/// Memory is refused.
pub fn report_text(
    alloc: Global,
    tables: &Lr1Result<'_>,
    terminals: &TerminalSet,
) -> Result<String, AllocError>
    requires { IsNoMemory tables.now }
    ensures { IfOk result (λ text. string_bytes text ≡ table_report (token_set_texts terminals.now) tables.now) }
{
    text_of_tables(alloc, tables, terminals)
}

/// Writes the text, and tells whether the writer took all of it.
fn send<W: Sink>(text: &str, out: &mut W) -> Result<(), ReportError>
    ensures sent { W.has_failed out.old ≡ false → HasBeenSent (W.contents out.old) (W.contents out.new) text.now result }
    ensures keeps { OnOk result (W.has_failed out.new ≡ W.has_failed out.old) }
    ensures fault { IfErr result (λ e. (e ≡ errors.Write) × (W.has_failed out.new ≡ true)) }
{
    if write_all(text.as_bytes(), out) {
        Ok(())
    } else {
        Err(ReportError::Write)
    }
}

/// Writes reports of constructions to a writer, over these terminals.
#[derive(Drop)]
pub struct ReportGenerator<'report, W> {
    out: &'report mut W,
    terminals: &'report TerminalSet,
}

impl<'report, W: Sink> ReportGenerator<'report, W> {
    /// Reports go to this writer.
    pub fn new(out: &'report mut W, terminals: &'report TerminalSet) -> ReportGenerator<'report, W>
        ensures same_writer { result.out.ghost_name ≡ out.entry.ghost_name }
        ensures unwritten { result.out.now ≡ out.old }
        ensures terminals { result.terminals.now ≡ terminals.entry.now }
    {
        ReportGenerator { out, terminals }
    }

    /// Writes the report of a construction that didn't run out of memory, as [`generate_report`] does.
    ///
    /// # Errors
    ///
    /// As there.
    pub fn report_lr_table_construction(
        &mut self,
        alloc: Global,
        tables: &Lr1Result<'_>,
    ) -> Result<(), ReportError>
        requires { IsNoMemory tables.now }
        ensures same_writer { self.new.out.ghost_name ≡ self.old.out.ghost_name }
        ensures same_terminals { self.new.terminals ≡ self.old.terminals }
        ensures sent { W.has_failed self.old.out.now ≡ false → HasBeenSent (W.contents self.old.out.now) (W.contents self.new.out.now)
            (table_report (token_set_texts self.old.terminals.now) tables.now) result }
        ensures keeps { OnOk result (W.has_failed self.new.out.now ≡ W.has_failed self.old.out.now) }
        ensures fault { IfErr result (λ e. e ≡ errors.Write → W.has_failed self.new.out.now ≡ true) }
        ensures memory { IfErr result (λ e. e ≡ errors.Memory → self.new.out.now ≡ self.old.out.now) }
    {
        generate_report(alloc, self.out, tables, self.terminals)
    }
}

/// Writes the report of a construction that didn't run out of memory. Nothing is written before the whole text is made.
///
/// # Errors
///
/// The writer failed, and has taken a front of the report; or memory was refused, and nothing was written.
pub fn generate_report<W: Sink>(
    alloc: Global,
    out: &mut W,
    tables: &Lr1Result<'_>,
    terminals: &TerminalSet,
) -> Result<(), ReportError>
    requires { IsNoMemory tables.now }
    ensures sent { W.has_failed out.old ≡ false → HasBeenSent (W.contents out.old) (W.contents out.new)
        (table_report (token_set_texts terminals.now) tables.now) result }
    ensures keeps { OnOk result (W.has_failed out.new ≡ W.has_failed out.old) }
    ensures fault { IfErr result (λ e. e ≡ errors.Write → W.has_failed out.new ≡ true) }
    ensures memory { IfErr result (λ e. e ≡ errors.Memory → out.new ≡ out.old) }
{
    let text = report_text(alloc, tables, terminals)?;
    send(text.as_str(), out)
}
