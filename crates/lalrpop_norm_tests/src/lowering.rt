//! Lowering: where productions stand, which nonterminals are inlined, and what actions do.

use crate::check::{boxed, check, equals, is_debug};
use crate::entries::are_entries;
use crate::grammars::{ACTIONS, COMMAS, checked_grammar, grammar_of, plain_session};
use crate::parts::name_of;
use crate::types::{LIST, comma_types, gives};
use lalrpop_grammar::{Attribute, NonterminalString, Span};
use lalrpop_grammar_repr::{ActionFnDefn, Grammar, TerminalSet};
use lalrpop_norm::{INLINE, Normalized, lower, normalize};
use std::alloc::Global;
use std::process::Abort;

/// The comma grammar, lowered.
pub(crate) fn lowered_commas(rt: &impl Abort, alloc: Global) -> Box<Normalized> {
    let types = comma_types(rt, alloc);
    let checked = checked_grammar(rt, alloc, COMMAS);
    let made = lower(
        alloc,
        &plain_session(alloc),
        Box::into_inner(checked),
        Box::into_inner(types),
    );
    Box::new(alloc, made.expect(rt, "a lowered grammar")).expect(rt, "memory")
}

/// The grammar that the JSON spells, normalized.
pub(crate) fn normalized_grammar(rt: &impl Abort, alloc: Global, text: &str) -> Box<Normalized> {
    let grammar = grammar_of(rt, alloc, text);
    let made = normalize(alloc, &plain_session(alloc), Box::into_inner(grammar));
    Box::new(alloc, made.expect(rt, "a normal grammar")).expect(rt, "memory")
}

/// The comma and n, each with its place, as `Debug` prints them.
const TERMINALS: &str =
    r#"TerminalSet { all: List { items: [Literal(Quoted(",")), Literal(Quoted("n"))] }, bits: Map { map: {Literal(Quoted(",")): 0, Literal(Quoted("n")): 1} } }"#;

/// The start of L alone.
const STARTS: &str = r#"Map { map: {NonterminalString("L"): NonterminalString("__L")} }"#;

/// Whether a copy of the terminals has these two.
fn terminals_are_copied(rt: &impl Abort, alloc: Global, terminals: &TerminalSet) -> bool {
    let copy = boxed(rt, alloc, terminals.try_clone(alloc).expect(rt, "memory"));
    is_debug(rt, alloc, &*copy, TERMINALS)
}

/// Whether L has a start, which stands alone, and nothing else has one.
fn starts_with_list(rt: &impl Abort, alloc: Global, grammar: &Grammar) -> bool {
    let start = name_of(rt, alloc, "__L");
    is_debug(rt, alloc, &grammar.start_nonterminals, STARTS) & grammar.start_is_alone(&start)
}

/// Whether they are the mark of an inlined rule.
fn are_mark(attributes: &[Attribute]) -> bool {
    match attributes {
        [only] => only.id.as_str() == INLINE,
        _ => false,
    }
}

/// Where the nonterminal stands, and whether it is marked to be inlined.
fn stands(grammar: &Grammar, name: &NonterminalString) -> Option<(Span, bool)> {
    match grammar.nonterminals.get(name) {
        Some(data) => Some((data.span, are_mark(data.attributes.as_slice()))),
        None => None,
    }
}

/// Where the only production of the nonterminal stands.
fn production_stands(grammar: &Grammar, name: &NonterminalString) -> Option<Span> {
    match grammar.productions_for(name) {
        [only] => Some(only.span),
        _ => None,
    }
}

/// The nonterminals of the comma grammar, where they stand, and whether they are inlined.
static NONTERMINALS: [(&str, Span, bool); 7] = [
    ("__L", Span(0, 5), false),
    ("L", Span(0, 5), false),
    (r#"Comma<"n">"#, Span(20, 25), false),
    (r#"(<"n"> ",")*"#, Span(34, 44), true),
    (r#"(<"n"> ",")+"#, Span(34, 44), false),
    (r#"(<"n"> ",")"#, Span(34, 43), true),
    (r#""n"?"#, Span(47, 49), true),
];

/// That the nonterminal of that name stands there, and is marked or not.
fn nonterminal_stands(
    rt: &impl Abort,
    alloc: Global,
    grammar: &Grammar,
    name: &str,
    wanted: (Span, bool),
) {
    let key = name_of(rt, alloc, name);
    assert!(rt; stands(grammar, &key) == Some(wanted), "{name}");
}

/// That nonterminals stand where they are written, and are marked as they are to be.
fn nonterminals_stand(rt: &impl Abort, alloc: Global, grammar: &Grammar) {
    check(rt, grammar.nonterminals.len() == NONTERMINALS.len());
    for (name, span, inlined) in NONTERMINALS.iter() {
        nonterminal_stands(rt, alloc, grammar, name, (*span, *inlined));
    }
}

/// That the only production of the nonterminal stands where its alternative does.
fn alternative_stands(rt: &impl Abort, alloc: Global, grammar: &Grammar, name: &str, span: Span) {
    let key = name_of(rt, alloc, name);
    check(rt, production_stands(grammar, &key) == Some(span));
}

/// That the productions of alternatives stand where these do.
fn alternatives_stand(rt: &impl Abort, alloc: Global, grammar: &Grammar) {
    alternative_stands(rt, alloc, grammar, "L", Span(7, 18));
    alternative_stands(rt, alloc, grammar, r#"Comma<"n">"#, Span(31, 50));
}

/// Whether a copy of each nonterminal equals it.
fn are_copied(rt: &impl Abort, alloc: Global, grammar: &Grammar) -> bool {
    for (_, data) in grammar.nonterminals.iter() {
        if !equals(data, data.try_clone(alloc).expect(rt, "memory")) {
            return false;
        }
    }
    true
}

/// That the lowered comma grammar has a start, types, terminals and entries, and of ten productions the actions and origins.
fn is_lowered(rt: &impl Abort, alloc: Global, made: &Normalized) {
    check(rt, starts_with_list(rt, alloc, &made.grammar));
    check(rt, gives(rt, alloc, &made.grammar.types, "__L", LIST));
    check(rt, terminals_are_copied(rt, alloc, &made.grammar.terminals));
    check(rt, are_copied(rt, alloc, &made.grammar));
    check(rt, are_entries(made.entries.as_slice()));
    check(rt, made.grammar.action_fn_defns.len() == 10);
    check(rt, made.origins.len() == 10);
    check(rt, !made.grammar.algorithm.lalr);
}

#[test]
fn rules_become_productions_where_they_are_written(rt: HostRuntime) {
    let made = lowered_commas(&rt, rt.alloc());
    is_lowered(&rt, rt.alloc(), &made);
    nonterminals_stand(&rt, rt.alloc(), &made.grammar);
    alternatives_stand(&rt, rt.alloc(), &made.grammar);
}

/// What the action of the production at that place of the nonterminal does.
fn definition_at<'g>(
    rt: &impl Abort,
    alloc: Global,
    grammar: &'g Grammar,
    name: &str,
    place: usize,
) -> &'g ActionFnDefn {
    let name = name_of(rt, alloc, name);
    let productions = grammar.productions_for(&name);
    let production = productions.get(place).expect(rt, "such a production");
    let actions = grammar.action_fn_defns.as_slice();
    actions
        .get(production.action.index())
        .expect(rt, "such an action")
}

/// What a start does.
const START: &str =
    r#"ActionFnDefn { fallible: false, ret_type: Nominal(NominalTypeRepr { path: "usize", types: List { items: [] } }), kind: User(UserActionFnDefn { code: None }) }"#;

/// The code `l`, which gives a place.
const CODE: &str =
    r#"ActionFnDefn { fallible: false, ret_type: Nominal(NominalTypeRepr { path: "usize", types: List { items: [] } }), kind: User(UserActionFnDefn { code: Some("l") }) }"#;

/// The code `f`, which gives a place or fails.
const FALLIBLE_CODE: &str =
    r#"ActionFnDefn { fallible: true, ret_type: Nominal(NominalTypeRepr { path: "usize", types: List { items: [] } }), kind: User(UserActionFnDefn { code: Some("f") }) }"#;

/// What `@L` does.
const PLACE: &str =
    r#"ActionFnDefn { fallible: false, ret_type: Nominal(NominalTypeRepr { path: "usize", types: List { items: [] } }), kind: Lookaround(Lookahead) }"#;

/// That the action of the production at that place of the nonterminal does this.
fn does(rt: &impl Abort, alloc: Global, grammar: &Grammar, name: &str, place: usize, wanted: &str) {
    let definition = definition_at(rt, alloc, grammar, name, place);
    check(rt, is_debug(rt, alloc, definition, wanted));
}

/// That each action does what its alternative says, a start's and a place's too.
fn do_as_written(rt: &impl Abort, alloc: Global, grammar: &Grammar) {
    check(rt, grammar.algorithm.lalr);
    does(rt, alloc, grammar, "__S", 0, START);
    does(rt, alloc, grammar, "S", 0, CODE);
    does(rt, alloc, grammar, "S", 1, FALLIBLE_CODE);
    does(rt, alloc, grammar, "@L", 0, PLACE);
}

#[test]
fn actions_do_what_alternatives_say(rt: HostRuntime) {
    let made = normalized_grammar(&rt, rt.alloc(), ACTIONS);
    do_as_written(&rt, rt.alloc(), &made.grammar);
}
