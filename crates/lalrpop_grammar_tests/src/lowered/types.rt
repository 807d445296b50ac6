//! Types of symbols.

use crate::check::{check, name_of};
use crate::lowered::parts::terminal_of;
use lalrpop_grammar_repr::{Symbol, TypeRepr, Types};
use lalrpop_grammar_symbols::{NonterminalString, TerminalString};
use std::alloc::Global;
use std::process::Abort;

/// A copy of the table of the nonterminal S, of type usize, and the terminal a, of type str.
fn table(rt: &impl Abort, alloc: Global) -> Box<Types> {
    let mut types = Types::new(alloc);
    let number = TypeRepr::usize(alloc).expect(rt, "memory");
    let added = types.add_type(name_of(rt, alloc, "S"), number);
    added.expect(rt, "memory");
    let text = TypeRepr::str(alloc).expect(rt, "memory");
    let added = types.add_term_type(terminal_of(rt, alloc, "a"), text);
    added.expect(rt, "memory");
    let copy = types.try_clone(alloc).expect(rt, "memory");
    Box::new(alloc, copy).expect(rt, "memory")
}

/// The type of the nonterminal as a symbol, which the table has or hasn't.
fn nonterminal_type(types: &Types, name: NonterminalString) -> Option<&TypeRepr> {
    match types.lookup_nonterminal_type(&name) {
        Some(_) => Some(Symbol::Nonterminal(name).ty(types)),
        None => None,
    }
}

/// The type of the terminal as a symbol, which the table has or hasn't.
fn terminal_type(types: &Types, terminal: TerminalString) -> Option<&TypeRepr> {
    match types.terminal_types.get(&terminal) {
        Some(_) => Some(Symbol::Terminal(terminal).ty(types)),
        None => None,
    }
}

/// Whether it is the type of this name without arguments.
fn is_named(found: Option<&TypeRepr>, name: &str) -> bool {
    match found {
        Some(TypeRepr::Nominal(found)) => { (found.path.as_str() == name) & found.types.is_empty() }
        _ => false,
    }
}

/// That the nonterminal S and the terminal a have types, and no others.
fn has_types(rt: &impl Abort, alloc: Global, types: &Types) {
    let found = nonterminal_type(types, name_of(rt, alloc, "S"));
    check(rt, is_named(found, "usize"));
    let found = nonterminal_type(types, name_of(rt, alloc, "T"));
    check(rt, found.is_none());
    let found = terminal_type(types, terminal_of(rt, alloc, "a"));
    check(rt, is_named(found, "str"));
    let found = terminal_type(types, terminal_of(rt, alloc, "b"));
    check(rt, found.is_none());
}

#[test]
fn types_of_symbols(rt: HostRuntime) {
    let types = table(&rt, rt.alloc());
    has_types(&rt, rt.alloc(), &types);
}
