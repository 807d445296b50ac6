//! Right sides by numbers, laid one behind the other.

ghost use Rattle.std.specs.Prelude.{◌≡◌, ◌<◌, ◌^◌, ℕ, Contains, IfOk, OnOk, Some, length, slice_get};
ghost use Rattle.lalrpop_grammar_repr.specs.Maps.{at_terminal};
ghost use Rattle.lalrpop_lr1_core.specs.Numbering.{NumbersArePlaces};
ghost use Rattle.lalrpop_lr1_core.specs.Views.{production_symbol_view};
ghost use Rattle.lalrpop_lr1_first.specs.Listings.{lent};
ghost use Rattle.lalrpop_lr1_first.specs.NumberedGrammars.{NamesAreNumbered};
ghost use Rattle.lalrpop_lr1_first.specs.Tables.{
  AreLaid,
  IsKnownProduction,
  IsKnownSymbol,
  LaysRule,
  LaysSymbols,
  symbol_of_number,
};

use crate::names::NumberedNames;
use crate::place::{NumberedRule, Place};
use lalrpop_grammar_repr::{Production, Symbol, TerminalSet};
use lalrpop_grammar_symbols::TerminalString;
use std::alloc::{AllocError, Global};

/// How many terminals there are.
pub(crate) fn terminal_count(terminals: &TerminalSet) -> usize
    ensures count { result ≡ length terminals.now.all }
    ensures small { result < 2 ^ 63 }
{
    terminals.all.as_slice().len()
}

/// The number of a terminal of the set.
fn terminal_number(terminals: &TerminalSet, terminal: &TerminalString) -> usize
    requires known { (k : ℕ) × (at_terminal terminal.now terminals.now.bits ≡ Some k) }
    requires places { NumbersArePlaces terminals.now }
    ensures at { slice_get terminals.now.all result ≡ Some terminal.now }
    ensures small { result < 2 ^ 63 }
{
    let _count = terminal_count(terminals);
    match terminals.bits.get(terminal) {
        Some(number) => *number,
        None => unreachable!(),
    }
}

/// The number of a symbol whose name or terminal is known.
fn symbol_number(names: &NumberedNames<'_>, terminals: &TerminalSet, symbol: &Symbol) -> usize
    requires numbered { NamesAreNumbered names.now }
    requires places { NumbersArePlaces terminals.now }
    requires known { IsKnownSymbol (lent names.now.listed.items) terminals.now symbol.now }
    ensures { symbol_of_number (lent names.now.listed.items) terminals.now result ≡ Some (production_symbol_view symbol.now) }
{
    match symbol {
        Symbol::Nonterminal(name) => names.number(name),
        Symbol::Terminal(terminal) => { names.listed.len() + terminal_number(terminals, terminal) }
    }
}

/// Lays the symbols behind what was laid.
fn lay_symbols(
    names: &NumberedNames<'_>,
    terminals: &TerminalSet,
    symbols: &[Symbol],
    places: &mut Vec<Place>,
) -> Result<(), AllocError>
    requires numbered { NamesAreNumbered names.now }
    requires places { NumbersArePlaces terminals.now }
    requires known { (x : _) → Contains symbols.now x → IsKnownSymbol (lent names.now.listed.items) terminals.now x }
    ensures { OnOk result (LaysSymbols (lent names.now.listed.items) terminals.now places.old.items places.new.items symbols.now) }
{
    for symbol in symbols {
        places.push(Place::Symbol(symbol_number(names, terminals, symbol)))?;
    }
    Ok(())
}

/// Lays the production behind what was laid.
fn lay_rule(
    names: &NumberedNames<'_>,
    terminals: &TerminalSet,
    production: &Production,
    rules: &mut Vec<NumberedRule>,
    places: &mut Vec<Place>,
) -> Result<(), AllocError>
    requires numbered { NamesAreNumbered names.now }
    requires places { NumbersArePlaces terminals.now }
    requires known { IsKnownProduction (lent names.now.listed.items) terminals.now production.now }
    ensures { OnOk result (LaysRule (lent names.now.listed.items) terminals.now (length rules.old.items) production.now
        rules.old.items rules.new.items places.old.items places.new.items) }
{
    let rule = NumberedRule {
        left: names.number(&production.nonterminal),
        start: places.len(),
    };
    lay_symbols(names, terminals, production.symbols.as_slice(), places)?;
    places.push(Place::End(rules.len()))?;
    rules.push(rule)?;
    Ok(())
}

/// Lays the productions, in order.
pub(crate) fn lay_rules(
    names: &NumberedNames<'_>,
    terminals: &TerminalSet,
    productions: &[&Production],
    rules: &mut Vec<NumberedRule>,
    places: &mut Vec<Place>,
) -> Result<(), AllocError>
    requires numbered { NamesAreNumbered names.now }
    requires places { NumbersArePlaces terminals.now }
    requires known { (p : _) → Contains (lent productions.now) p → IsKnownProduction (lent names.now.listed.items) terminals.now p }
    requires no_rules { length rules.old.items ≡ 0 }
    requires no_places { length places.old.items ≡ 0 }
    ensures { OnOk result (AreLaid (lent names.now.listed.items) terminals.now (lent productions.now) rules.new.items places.new.items) }
{
    for production in productions {
        lay_rule(names, terminals, *production, rules, places)?;
    }
    Ok(())
}
