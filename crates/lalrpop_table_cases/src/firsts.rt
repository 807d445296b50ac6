//! First sets, as text.

ghost use Rattle.lalrpop_lr1_first.specs.NumberedGrammars.{HasItsTerminals};

use lalrpop_grammar_repr::{Grammar, Symbol};
use lalrpop_lr1_first::FirstSets;
use lalrpop_plain_tables::answers::start_of;
use std::alloc::{AllocError, Global};

/// The nonterminals whose names stand in the text between blanks.
fn symbols_of(alloc: Global, names: &str) -> Result<Vec<Symbol>, AllocError> {
    let mut symbols = Vec::new(alloc);
    for name in names.split_whitespace() {
        symbols.push(Symbol::Nonterminal(start_of(alloc, name)?))?;
    }
    Ok(symbols)
}

/// The first set of the nonterminals whose names stand in the text.
pub(crate) fn first_text(
    alloc: Global,
    grammar: &Grammar,
    names: &str,
) -> Result<String, AllocError>
    requires { HasItsTerminals grammar.now }
{
    let firsts = FirstSets::new(alloc, grammar)?;
    let symbols = symbols_of(alloc, names)?;
    let set = firsts.first0(alloc, &grammar.terminals, symbols.as_slice())?;
    set.shown(alloc, &grammar.terminals)
}
