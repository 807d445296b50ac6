//! The table of actions of states.

ghost use Rattle.std.specs.Prelude.{◌≡◌, IfOk, map};
ghost use Rattle.lalrpop_lr1_core.specs.Views.{lr_state_view, token_lookahead};
ghost use Rattle.lalrpop_lr1_interpret.specs.MadeTables.{IsMadeOf};
ghost use Rattle.lalrpop_lr1_interpret.specs.Numbers.{HaveOneNumber};
ghost use Rattle.lalrpop_lr1_interpret.specs.Rows.{AreActionsOf, AreNumberedProductions, AreNumbersOf};
ghost use Rattle.lalrpop_lr1_interpret.specs.Tables.{IsTableOf};

use crate::parse::action_table::ActionTable;
use crate::parse::entries::{Entries, GotoEntry, TerminalEntry, entries_of};
use crate::parse::numbering::{
    number_acts, number_nonterminals, number_productions, number_terminals, targets_of,
};
use crate::parse::table_row::{NumberedProduction, TableAction};
use indexmap::IndexSet;
use lalrpop_grammar_repr::{Production, TerminalSet};
use lalrpop_grammar_symbols::{NonterminalString, TerminalString};
use lalrpop_lr1_core::Lr1State;
use std::alloc::{AllocError, Global};

/// Terminals at their numbers, and the numbers of the entries' terminals.
#[derive(Drop)]
struct TerminalNumbers {
    terminals: IndexSet<TerminalString>,
    keys: Vec<usize>,
}

/// Nonterminals at their numbers, and what entries say by them.
#[derive(Drop)]
struct NonterminalNumbers<'g> {
    nonterminals: IndexSet<NonterminalString>,
    actions: Vec<TableAction<'g>>,
    ends: Vec<NumberedProduction<'g>>,
    goto_keys: Vec<usize>,
    targets: Vec<usize>,
}

/// Numbers for the terminals of the entries.
fn terminal_numbers(
    alloc: Global,
    entries: &[TerminalEntry<'_, '_>],
) -> Result<TerminalNumbers, AllocError>
    ensures keys { IfOk result (λ r. AreNumbersOf r.terminals.keys (map (λ e. e.terminal.now) entries.now) r.keys.items) }
    ensures one { IfOk result (λ r. HaveOneNumber r.terminals.keys) }
{
    let mut terminals = IndexSet::new(alloc);
    let keys = number_terminals(alloc, &mut terminals, entries)?;
    Ok(TerminalNumbers { terminals, keys })
}

/// Numbers for the nonterminals of the entries' actions, of the productions at the end and of the gotos.
fn nonterminal_numbers<'g>(
    alloc: Global,
    entries: &[TerminalEntry<'_, 'g>],
    ends: &[&'g Production],
    gotos: &[GotoEntry<'_>],
) -> Result<NonterminalNumbers<'g>, AllocError>
    ensures actions { IfOk result (λ r. AreActionsOf r.nonterminals.keys (map (λ e. e.act) entries.now) r.actions.items) }
    ensures ends { IfOk result (λ r. AreNumberedProductions r.nonterminals.keys ends.now r.ends.items) }
    ensures goto_keys { IfOk result (λ r. AreNumbersOf r.nonterminals.keys (map (λ e. e.nonterminal.now) gotos.now) r.goto_keys.items) }
    ensures targets { IfOk result (λ r. r.targets.items ≡ map (λ e. e.target) gotos.now) }
    ensures one { IfOk result (λ r. HaveOneNumber r.nonterminals.keys) }
{
    let mut nonterminals = IndexSet::new(alloc);
    let actions = number_acts(alloc, &mut nonterminals, entries)?;
    let ends = number_productions(alloc, &mut nonterminals, ends)?;
    let goto_keys = number_nonterminals(alloc, &mut nonterminals, gotos)?;
    let targets = targets_of(alloc, gotos)?;
    Ok(NonterminalNumbers {
        nonterminals,
        actions,
        ends,
        goto_keys,
        targets,
    })
}

/// A table of the entries of the states, by numbers.
fn table_of<'g>(
    alloc: Global,
    states: &[Lr1State<'g>],
    terminals: &TerminalSet,
) -> Result<ActionTable<'g>, AllocError>
    ensures { IfOk result (λ table. IsMadeOf table terminals.now states.now) }
{
    let Entries {
        rows,
        terminals: entries,
        ends,
        gotos,
    } = entries_of(alloc, states, terminals)?;
    let TerminalNumbers { terminals, keys } = terminal_numbers(alloc, entries.as_slice())?;
    let NonterminalNumbers {
        nonterminals,
        actions,
        ends,
        goto_keys,
        targets,
    } = nonterminal_numbers(alloc, entries.as_slice(), ends.as_slice(), gotos.as_slice())?;
    Ok(ActionTable {
        terminals,
        nonterminals,
        rows,
        keys,
        actions,
        ends,
        goto_keys,
        targets,
    })
}

impl<'g> ActionTable<'g> {
    /// The table of the states, whose sets of tokens are over these terminals: it says what they say.
    pub fn new(
        alloc: Global,
        states: &[Lr1State<'g>],
        terminals: &TerminalSet,
    ) -> Result<ActionTable<'g>, AllocError>
        ensures { IfOk result (λ table. IsTableOf table (map (lr_state_view (token_lookahead terminals.now)) states.now)) }
    {
        table_of(alloc, states, terminals)
    }
}
