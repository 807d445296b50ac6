//! Terminals, symbols and productions.

use crate::check::name_of;
use lalrpop_grammar_repr::{ActionFn, Production, Symbol};
use lalrpop_grammar_symbols::{Atom, List, Span, TerminalString};
use std::alloc::Global;
use std::process::Abort;

/// The quoted terminal.
pub(crate) fn terminal_of(rt: &impl Abort, alloc: Global, text: &str) -> TerminalString {
    TerminalString::quoted(Atom::new(alloc, text).expect(rt, "memory"))
}

/// The nonterminal as a symbol.
pub(crate) fn nonterminal_symbol(rt: &impl Abort, alloc: Global, name: &str) -> Symbol {
    Symbol::Nonterminal(name_of(rt, alloc, name))
}

/// The quoted terminal as a symbol.
pub(crate) fn terminal_symbol(rt: &impl Abort, alloc: Global, text: &str) -> Symbol {
    Symbol::Terminal(terminal_of(rt, alloc, text))
}

/// A production of the nonterminal with this one nonterminal on its right side, written there.
pub(crate) fn production_of(
    rt: &impl Abort,
    alloc: Global,
    name: &str,
    side: &str,
    action: ActionFn,
    span: Span,
) -> Production {
    let mut symbols = List::new(alloc);
    symbols
        .push(nonterminal_symbol(rt, alloc, side))
        .expect(rt, "memory");
    Production {
        nonterminal: name_of(rt, alloc, name),
        symbols,
        action,
        span,
    }
}
