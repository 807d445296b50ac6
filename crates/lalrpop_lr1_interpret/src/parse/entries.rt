//! What states do, entry by entry, by names: what a table of actions is made of.

ghost use Rattle.std.specs.Prelude.{◌≡◌, ◌++◌, ◌∷◌, [], OnOk, IfOk, flat_map, length, map};
ghost use Rattle.lalrpop_lr1_interpret.specs.Rows.{AreRowsOf, end_productions, entry_view, goto_entries, goto_entry_view};
ghost use Rattle.lalrpop_lr1_interpret.specs.Rows.{reduction_entries, row_between, shift_entry, terminal_entries};

use crate::parse::table_row::{PlaceRange, TableRow};
use lalrpop_grammar_repr::{Production, TerminalSet};
use lalrpop_grammar_symbols::{NonterminalString, TerminalString};
use lalrpop_lr1_core::Lr1State;
use lalrpop_sets::{TokenRef, TokenSet};
use std::alloc::{AllocError, Global};

/// What a state does before a terminal.
#[derive(Clone, Copy)]
pub(crate) enum Act<'g> {
    /// It leads to the state with this number.
    Shift(usize),
    /// It reduces by the production.
    Reduce(&'g Production),
}

/// A terminal, and what a state does before it.
#[derive(Clone, Copy)]
pub(crate) struct TerminalEntry<'s, 'g> {
    /// The terminal.
    pub(crate) terminal: &'s TerminalString,
    /// What is done.
    pub(crate) act: Act<'g>,
}

/// A nonterminal, and where it leads from a state.
#[derive(Clone, Copy)]
pub(crate) struct GotoEntry<'s> {
    /// The nonterminal.
    pub(crate) nonterminal: &'s NonterminalString,
    /// The number of the state to which it leads.
    pub(crate) target: usize,
}

/// What states do, state by state.
#[derive(Drop)]
pub(crate) struct Entries<'s, 'g> {
    /// One for each state.
    pub(crate) rows: Vec<TableRow>,
    /// Before terminals.
    pub(crate) terminals: Vec<TerminalEntry<'s, 'g>>,
    /// The productions by which states reduce before the end.
    pub(crate) ends: Vec<&'g Production>,
    /// Where nonterminals lead.
    pub(crate) gotos: Vec<GotoEntry<'s>>,
}

/// Adds the shifts of the state.
fn add_shifts<'s, 'g>(
    entries: &mut Vec<TerminalEntry<'s, 'g>>,
    state: &'s Lr1State<'g>,
) -> Result<(), AllocError>
    ensures { OnOk result (map entry_view entries.new.items
        ≡ map entry_view entries.old.items ++ map shift_entry state.now.shifts) }
{
    for (terminal, target) in state.shifts.iter() {
        entries.push(TerminalEntry {
            terminal,
            act: Act::Shift(target.0),
        })?;
    }
    Ok(())
}

/// Adds the reduction by the production before each terminal of the set.
fn add_tokens<'s, 'g>(
    entries: &mut Vec<TerminalEntry<'s, 'g>>,
    terminals: &'s TerminalSet,
    reduction: &'s (TokenSet, &'g Production),
) -> Result<(), AllocError>
    ensures { OnOk result (map entry_view entries.new.items
        ≡ map entry_view entries.old.items ++ reduction_entries terminals.now reduction.now) }
{
    let act = Act::Reduce(reduction.1);
    for token in reduction.0.iter(terminals) {
        if let TokenRef::Terminal(terminal) = token {
            entries.push(TerminalEntry { terminal, act })?;
        }
    }
    Ok(())
}

/// Adds the reductions of the state.
fn add_reductions<'s, 'g>(
    entries: &mut Vec<TerminalEntry<'s, 'g>>,
    terminals: &'s TerminalSet,
    state: &'s Lr1State<'g>,
) -> Result<(), AllocError>
    ensures { OnOk result (map entry_view entries.new.items
        ≡ map entry_view entries.old.items ++ flat_map (reduction_entries terminals.now) state.now.reductions) }
{
    for reduction in state.reductions.as_slice() {
        add_tokens(entries, terminals, reduction)?;
    }
    Ok(())
}

/// Adds what the state does before terminals.
fn add_terminals<'s, 'g>(
    entries: &mut Vec<TerminalEntry<'s, 'g>>,
    terminals: &'s TerminalSet,
    state: &'s Lr1State<'g>,
) -> Result<(), AllocError>
    ensures { OnOk result (map entry_view entries.new.items
        ≡ map entry_view entries.old.items ++ terminal_entries terminals.now state.now) }
{
    add_shifts(entries, state)?;
    add_reductions(entries, terminals, state)
}

/// Adds the productions by which the state reduces before the end.
fn add_ends<'g>(
    ends: &mut Vec<&'g Production>,
    terminals: &TerminalSet,
    state: &Lr1State<'g>,
) -> Result<(), AllocError>
    ensures { OnOk result (ends.new.items ≡ ends.old.items ++ end_productions terminals.now state.now) }
{
    for reduction in state.reductions.as_slice() {
        if reduction.0.contains_eof(terminals) {
            ends.push(reduction.1)?;
        }
    }
    Ok(())
}

/// Adds where the nonterminals of the state lead.
fn add_gotos<'s>(
    entries: &mut Vec<GotoEntry<'s>>,
    state: &'s Lr1State<'_>,
) -> Result<(), AllocError>
    ensures { OnOk result (map goto_entry_view entries.new.items
        ≡ map goto_entry_view entries.old.items ++ goto_entries state.now) }
{
    for (nonterminal, target) in state.gotos.iter() {
        entries.push(GotoEntry {
            nonterminal,
            target: target.0,
        })?;
    }
    Ok(())
}

impl<'s, 'g> Entries<'s, 'g> {
    /// Adds what the state does, and its row.
    fn add_state(
        &mut self,
        terminals: &'s TerminalSet,
        state: &'s Lr1State<'g>,
    ) -> Result<(), AllocError>
        ensures terminals { OnOk result (map entry_view self.new.terminals.items
            ≡ map entry_view self.old.terminals.items ++ terminal_entries terminals.now state.now) }
        ensures ends { OnOk result (self.new.ends.items ≡ self.old.ends.items ++ end_productions terminals.now state.now) }
        ensures gotos { OnOk result (map goto_entry_view self.new.gotos.items
            ≡ map goto_entry_view self.old.gotos.items ++ goto_entries state.now) }
        ensures row { OnOk result (self.new.rows.items ≡ self.old.rows.items ++ row_between self.old self.new ∷ []) }
    {
        let first_action = self.terminals.len();
        let first_end = self.ends.len();
        let first_goto = self.gotos.len();
        add_terminals(&mut self.terminals, terminals, state)?;
        add_ends(&mut self.ends, terminals, state)?;
        add_gotos(&mut self.gotos, state)?;
        let row = TableRow {
            actions: PlaceRange {
                first: first_action,
                past: self.terminals.len(),
            },
            ends: PlaceRange {
                first: first_end,
                past: self.ends.len(),
            },
            gotos: PlaceRange {
                first: first_goto,
                past: self.gotos.len(),
            },
        };
        self.rows.push(row)?;
        Ok(())
    }
}

/// What the states do.
pub(crate) fn entries_of<'s, 'g>(
    alloc: Global,
    states: &'s [Lr1State<'g>],
    terminals: &'s TerminalSet,
) -> Result<Entries<'s, 'g>, AllocError>
    ensures terminals { IfOk result (λ e. map entry_view e.terminals.items ≡ flat_map (terminal_entries terminals.now) states.now) }
    ensures ends { IfOk result (λ e. e.ends.items ≡ flat_map (end_productions terminals.now) states.now) }
    ensures gotos { IfOk result (λ e. map goto_entry_view e.gotos.items ≡ flat_map goto_entries states.now) }
    ensures rows { IfOk result (λ e. AreRowsOf terminals.now states.now e.rows.items) }
    ensures count { IfOk result (λ e. length e.rows.items ≡ length states.now) }
{
    let mut entries = Entries {
        rows: Vec::new(alloc),
        terminals: Vec::new(alloc),
        ends: Vec::new(alloc),
        gotos: Vec::new(alloc),
    };
    for state in states {
        entries.add_state(terminals, state)?;
    }
    Ok(entries)
}
