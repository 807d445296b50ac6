//! Examples: the symbols that lead to an item, and what is reduced to what.

use lalrpop_grammar_repr::Symbol;
use lalrpop_grammar_symbols::NonterminalString;

/// A symbol of an example.
#[derive(Drop)]
pub enum ExampleSymbol {
    /// A symbol of the grammar.
    Symbol(Symbol),
    /// Nothing, where a production without symbols stands at the cursor.
    Epsilon,
}

/// Part of an example that is reduced to a nonterminal.
#[derive(Drop)]
pub struct Reduction {
    /// The place of its first symbol.
    pub start: usize,
    /// The place behind its last symbol.
    pub end: usize,
    /// The nonterminal.
    pub nonterminal: NonterminalString,
}

/// An example of how the input around an item may look.
#[derive(Drop)]
pub struct Example {
    /// The symbols, those on the stack first.
    pub symbols: Vec<ExampleSymbol>,
    /// How many of them are on the stack.
    pub cursor: usize,
    /// What is reduced, from the innermost out.
    pub reductions: Vec<Reduction>,
}
