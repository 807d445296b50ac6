//! Numbers for terminals and nonterminals, in order of first sight, and what a table says by them.

ghost use Rattle.std.specs.Prelude.{◌≡◌, Some, IfOk, OnOk, map, slice_get};
ghost use Rattle.lalrpop_lr1_interpret.specs.Numbers.{GoOn};
ghost use Rattle.lalrpop_lr1_interpret.specs.Rows.{AreActionsOf, AreNumberedProductions, AreNumbersOf, IsActionOf};
ghost use Rattle.lalrpop_lr1_interpret.specs.Tables.{IsNumberedProduction};

use crate::parse::entries::{Act, GotoEntry, TerminalEntry};
use crate::parse::table_row::{NumberedProduction, TableAction};
use indexmap::IndexSet;
use lalrpop_grammar_repr::Production;
use lalrpop_grammar_symbols::{NonterminalString, TerminalString};
use std::alloc::{AllocError, Global};

/// The number of the terminal: its own, or the next one where it had none.
fn number_terminal(
    names: &mut IndexSet<TerminalString>,
    name: &TerminalString,
) -> Result<usize, AllocError>
    ensures number { IfOk result (λ k. slice_get names.new.keys k ≡ Some name.now) }
    ensures others { OnOk result (GoOn names.old.keys names.new.keys) }
{
    let (number, _) = names.insert_full(name.try_clone()?)?;
    Ok(number)
}

/// The number of the nonterminal: its own, or the next one where it had none.
fn number_nonterminal(
    names: &mut IndexSet<NonterminalString>,
    name: &NonterminalString,
) -> Result<usize, AllocError>
    ensures number { IfOk result (λ k. slice_get names.new.keys k ≡ Some name.now) }
    ensures others { OnOk result (GoOn names.old.keys names.new.keys) }
{
    let (number, _) = names.insert_full(name.try_clone()?)?;
    Ok(number)
}

/// The numbers of the entries' terminals.
pub(crate) fn number_terminals(
    alloc: Global,
    names: &mut IndexSet<TerminalString>,
    entries: &[TerminalEntry<'_, '_>],
) -> Result<Vec<usize>, AllocError>
    ensures numbers { IfOk result (λ ks. AreNumbersOf names.new.keys (map (λ e. e.terminal.now) entries.now) ks.items) }
    ensures others { OnOk result (GoOn names.old.keys names.new.keys) }
{
    let mut numbers = Vec::new(alloc);
    for entry in entries {
        numbers.push(number_terminal(names, entry.terminal)?)?;
    }
    Ok(numbers)
}

/// The production with the number of its nonterminal.
fn number_production<'g>(
    names: &mut IndexSet<NonterminalString>,
    production: &'g Production,
) -> Result<NumberedProduction<'g>, AllocError>
    ensures production { IfOk result (λ r. r.production ≡ production.entry) }
    ensures numbered { IfOk result (λ r. IsNumberedProduction names.new.keys r) }
    ensures others { OnOk result (GoOn names.old.keys names.new.keys) }
{
    let nonterminal = number_nonterminal(names, &production.nonterminal)?;
    Ok(NumberedProduction {
        production,
        length: production.symbols.len(),
        nonterminal,
    })
}

/// The action by numbers.
fn number_act<'g>(
    names: &mut IndexSet<NonterminalString>,
    act: Act<'g>,
) -> Result<TableAction<'g>, AllocError>
    ensures action { IfOk result (λ b. IsActionOf names.new.keys act.entry b) }
    ensures others { OnOk result (GoOn names.old.keys names.new.keys) }
{
    match act {
        Act::Shift(target) => Ok(TableAction::Shift(target)),
        Act::Reduce(production) => Ok(TableAction::Reduce(number_production(names, production)?)),
    }
}

/// The entries' actions by numbers.
pub(crate) fn number_acts<'g>(
    alloc: Global,
    names: &mut IndexSet<NonterminalString>,
    entries: &[TerminalEntry<'_, 'g>],
) -> Result<Vec<TableAction<'g>>, AllocError>
    ensures actions { IfOk result (λ bs. AreActionsOf names.new.keys (map (λ e. e.act) entries.now) bs.items) }
    ensures others { OnOk result (GoOn names.old.keys names.new.keys) }
{
    let mut actions = Vec::new(alloc);
    for entry in entries {
        actions.push(number_act(names, entry.act)?)?;
    }
    Ok(actions)
}

/// The productions with the numbers of their nonterminals.
pub(crate) fn number_productions<'g>(
    alloc: Global,
    names: &mut IndexSet<NonterminalString>,
    productions: &[&'g Production],
) -> Result<Vec<NumberedProduction<'g>>, AllocError>
    ensures numbered { IfOk result (λ rs. AreNumberedProductions names.new.keys productions.now rs.items) }
    ensures others { OnOk result (GoOn names.old.keys names.new.keys) }
{
    let mut numbered = Vec::new(alloc);
    for production in productions {
        numbered.push(number_production(names, production)?)?;
    }
    Ok(numbered)
}

/// The numbers of the entries' nonterminals.
pub(crate) fn number_nonterminals(
    alloc: Global,
    names: &mut IndexSet<NonterminalString>,
    entries: &[GotoEntry<'_>],
) -> Result<Vec<usize>, AllocError>
    ensures numbers { IfOk result (λ ks. AreNumbersOf names.new.keys (map (λ e. e.nonterminal.now) entries.now) ks.items) }
    ensures others { OnOk result (GoOn names.old.keys names.new.keys) }
{
    let mut numbers = Vec::new(alloc);
    for entry in entries {
        numbers.push(number_nonterminal(names, entry.nonterminal)?)?;
    }
    Ok(numbers)
}

/// Where the entries lead.
pub(crate) fn targets_of(alloc: Global, entries: &[GotoEntry<'_>]) -> Result<Vec<usize>, AllocError>
    ensures { IfOk result (λ ms. ms.items ≡ map (λ e. e.target) entries.now) }
{
    let mut targets = Vec::new(alloc);
    for entry in entries {
        targets.push(entry.target)?;
    }
    Ok(targets)
}
