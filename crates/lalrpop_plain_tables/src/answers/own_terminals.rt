//! Whether a grammar's terminals are numbered by their places, as the construction of states wants them.

ghost use Rattle.std.specs.Prelude.{◌≡◌, ◌↔◌, IsTrue, Some, slice_get};
ghost use Rattle.std.specs.List.{All};
ghost use Rattle.lalrpop_grammar_repr.specs.Maps.{at_terminal};
ghost use Rattle.lalrpop_lr1_core.specs.Numbering.{IsNumberedByPlaces, NumbersArePlaces};
ghost use Rattle.lalrpop_lr1_first.specs.NumberedGrammars.{HasItsTerminals};
ghost use Rattle.lalrpop_lr1_core.specs.TheoryGrammars.{productions_of_grammar};
ghost use Rattle.lalrpop_lr1_first.specs.Tables.{HasNumberedTerminal, HaveNumberedTerminals};
ghost use Rattle.lalrpop_plain_tables.specs.KnownTerminals.{AreKnownIn};

use lalrpop_grammar_repr::{Grammar, Production, Symbol, TerminalSet};
use lalrpop_grammar_symbols::TerminalString;

/// Whether the terminals of the grammar are numbered by their places, and each terminal on a right side is one of them. True only
/// where it is so.
pub fn has_its_terminals(grammar: &Grammar) -> bool
    ensures { IsTrue result → HasItsTerminals grammar.now }
{
    let terminals = &grammar.terminals;
    if !are_numbered(terminals) {
        return false;
    }
    if !are_places(terminals) {
        return false;
    }
    are_known(grammar)
}

/// Whether the terminal has this number.
fn has_number(terminals: &TerminalSet, terminal: &TerminalString, number: usize) -> bool
    ensures { IsTrue result ↔ (at_terminal terminal.now terminals.now.bits ≡ Some number) }
{
    match terminals.bits.get(terminal) {
        Some(found) => *found == number,
        None => false,
    }
}

/// Whether each terminal has its place as its number.
fn are_numbered(terminals: &TerminalSet) -> bool
    ensures { IsTrue result → IsNumberedByPlaces terminals.now }
{
    for (place, terminal) in terminals.all.as_slice().iter().enumerate() {
        if !has_number(terminals, terminal, place) {
            return false;
        }
    }
    true
}

/// Whether the terminals are one.
fn is_same(one: &TerminalString, other: &TerminalString) -> bool
    ensures { IsTrue result ↔ (one.now ≡ other.now) }
{
    one == other
}

/// Whether the terminal stands at the place.
fn stands_at(terminals: &[TerminalString], terminal: &TerminalString, place: usize) -> bool
    ensures { IsTrue result → slice_get terminals.now place ≡ Some terminal.now }
{
    match terminals.get(place) {
        Some(found) => is_same(found, terminal),
        None => false,
    }
}

/// Whether each number that is given to a terminal is its place.
fn are_places(terminals: &TerminalSet) -> bool
    ensures { IsTrue result → NumbersArePlaces terminals.now }
{
    for (terminal, number) in terminals.bits.iter() {
        if !stands_at(terminals.all.as_slice(), terminal, *number) {
            return false;
        }
    }
    true
}

/// Whether the terminals of the grammar's productions are numbered.
fn are_known(grammar: &Grammar) -> bool
    ensures { IsTrue result → HaveNumberedTerminals grammar.now.terminals (productions_of_grammar grammar.now) }
{
    for (_, data) in grammar.nonterminals.iter() {
        if !are_known_in(&grammar.terminals, data.productions.as_slice()) {
            return false;
        }
    }
    true
}

/// Whether the terminals of the productions are numbered.
fn are_known_in(terminals: &TerminalSet, productions: &[Production]) -> bool
    ensures { IsTrue result → AreKnownIn terminals.now productions.now }
{
    for production in productions {
        if !are_known_on(terminals, production.symbols.as_slice()) {
            return false;
        }
    }
    true
}

/// Whether the terminals among the symbols are numbered.
fn are_known_on(terminals: &TerminalSet, symbols: &[Symbol]) -> bool
    ensures { IsTrue result → All (HasNumberedTerminal terminals.now) symbols.now }
{
    for symbol in symbols {
        if !is_known(terminals, symbol) {
            return false;
        }
    }
    true
}

/// Whether the symbol is numbered, if it is a terminal.
fn is_known(terminals: &TerminalSet, symbol: &Symbol) -> bool
    ensures { IsTrue result → HasNumberedTerminal terminals.now symbol.now }
{
    match symbol {
        Symbol::Nonterminal(_) => true,
        Symbol::Terminal(terminal) => terminals.bits.get(terminal).is_some(),
    }
}
