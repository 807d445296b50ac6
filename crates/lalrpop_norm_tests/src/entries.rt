//! The token check: entries, places of literals, and the automaton.

use crate::check::check;
use crate::grammars::{COMMAS, checked_grammar, expanded_grammar, places_of};
use crate::parts::{is_quoted, is_terminal};
use lalrpop_grammar::{Atom, Grammar, MatchEntry, MatchMapping, Span, TerminalLiteral};
use lalrpop_lexer::dfa::{Dfa, NfaIndex, interpret};
use lalrpop_norm::{LiteralPlaces, token_check};
use std::alloc::Global;
use std::process::Abort;

/// Where the quoted literal stands first.
fn place_in(rt: &impl Abort, alloc: Global, places: &LiteralPlaces, text: &str) -> Option<Span> {
    let literal = TerminalLiteral::Quoted(Atom::new(alloc, text).expect(rt, "memory"));
    places.get(&literal)
}

#[test]
fn literals_stand_where_they_are_written(rt: HostRuntime) {
    let places = places_of(&rt, rt.alloc(), COMMAS);
    let n = place_in(&rt, rt.alloc(), &places, "n");
    check(&rt, n == Some(Span(14, 17)));
    let comma = place_in(&rt, rt.alloc(), &places, ",");
    check(&rt, comma == Some(Span(39, 42)));
    check(&rt, place_in(&rt, rt.alloc(), &places, "T").is_none());
}

/// Whether it is an entry of the quoted literal, which gives itself, in the only group.
fn is_entry(entry: &MatchEntry, text: &str) -> bool {
    match &entry.user_name {
        MatchMapping::Terminal(terminal) => {
            (entry.precedence == 3)
                & is_quoted(&entry.match_literal, text)
                & is_terminal(terminal, text)
        }
        MatchMapping::Skip => false,
    }
}

/// Whether they are the entries of the comma grammar, in order of their bytes.
pub(crate) fn are_entries(entries: &[MatchEntry]) -> bool {
    match entries {
        [first, second] => is_entry(first, ",") & is_entry(second, "n"),
        _ => false,
    }
}

/// Whether the six rules and the entries are the items.
fn ends_with_entries(grammar: &Grammar) -> bool {
    match grammar.intern_token() {
        Some(token) => { are_entries(token.match_entries.as_slice()) & (grammar.items.len() == 7) }
        None => false,
    }
}

/// That the automaton is that of the entries of the comma grammar.
pub(crate) fn tells_entries(rt: &impl Abort, dfa: &Dfa) {
    check(rt, interpret(dfa, ",n") == Some((NfaIndex(0), ",")));
    check(rt, interpret(dfa, "n,") == Some((NfaIndex(1), "n")));
    check(rt, interpret(dfa, "T").is_none());
}

/// Whether the entries are there where no automaton is asked for.
fn has_entries_alone(rt: &impl Abort, alloc: Global) -> bool {
    let checked = checked_grammar(rt, alloc, COMMAS);
    ends_with_entries(&checked)
}

/// The comma grammar with its entries, and their automaton.
fn checked_with_dfa(rt: &impl Abort, alloc: Global) -> Box<(Grammar, Dfa)> {
    let places = places_of(rt, alloc, COMMAS);
    let expanded = expanded_grammar(rt, alloc, COMMAS);
    let checked = token_check::validate_with_dfa(alloc, Box::into_inner(expanded), &places);
    Box::new(alloc, checked.expect(rt, "entries")).expect(rt, "memory")
}

#[test]
fn literals_become_entries_of_the_tokenizer(rt: HostRuntime) {
    check(&rt, has_entries_alone(&rt, rt.alloc()));
    let checked = checked_with_dfa(&rt, rt.alloc());
    check(&rt, ends_with_entries(&checked.0));
    tells_entries(&rt, &checked.1);
}
