//! Grammars from lines, and their parts by name.

ghost use Rattle.lalrpop_lr1_first.specs.NumberedGrammars.{HasItsTerminals};

use lalrpop_grammar_repr::{Grammar, Production};
use lalrpop_grammar_symbols::{Atom, NonterminalString, TerminalString};
use lalrpop_plain_tables::answers::read_productions;
use lalrpop_sets::Token;
use std::alloc::Global;
use std::process::Abort;

/// `__S = S; S = C C; C = "c" C or "d"`
pub(crate) const PAIRS: &str = "__S: S\nS: C C\nC: \"c\" C\nC: \"d\"\n";

/// The grammar of the lines.
pub(crate) fn grammar_of(rt: &impl Abort, alloc: Global, lines: &str) -> Grammar
    ensures { HasItsTerminals result }
{
    read_productions(alloc, lines).expect(rt, "a grammar")
}

/// The nonterminal of that name.
pub(crate) fn name_of(rt: &impl Abort, alloc: Global, name: &str) -> NonterminalString {
    NonterminalString(Atom::new(alloc, name).expect(rt, "memory"))
}

/// The token of a quoted terminal.
pub(crate) fn token_of(rt: &impl Abort, alloc: Global, text: &str) -> Token {
    Token::Terminal(terminal_of(rt, alloc, text))
}

/// The quoted terminal.
pub(crate) fn terminal_of(rt: &impl Abort, alloc: Global, text: &str) -> TerminalString {
    TerminalString::quoted(Atom::new(alloc, text).expect(rt, "memory"))
}

/// The production of the nonterminal at that place.
pub(crate) fn production_at<'g>(
    rt: &impl Abort,
    alloc: Global,
    grammar: &'g Grammar,
    name: &str,
    place: usize,
) -> &'g Production {
    let name = name_of(rt, alloc, name);
    let productions = grammar.productions_for(&name);
    productions.get(place).expect(rt, "a production")
}
