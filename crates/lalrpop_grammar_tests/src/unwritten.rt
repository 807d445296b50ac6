//! Grammars that no value spells.

use crate::check::{check, name_of};
use crate::grammars::grammar_of;
use lalrpop_grammar::{
    ActionKind, Alternative, Atom, Grammar, GrammarItem, InternToken, List, MatchContents,
    MatchItem, MatchMapping, MatchToken, NonterminalData, Origin, Span, Symbol, SymbolKind,
    TerminalLiteral, TerminalString, Visibility,
};
use lalrpop_json_grammar::writer::{WriteError, write_grammar};
use std::alloc::Global;
use std::process::Abort;

fn one<T: Drop>(rt: &impl Abort, alloc: Global, item: T) -> List<T> {
    let mut items = List::new(alloc);
    items.push(item).expect(rt, "memory");
    items
}

/// The first alternative of the rule `S`, of one symbol.
fn alternative(rt: &impl Abort, alloc: Global, kind: SymbolKind) -> Alternative {
    Alternative {
        span: Span(0, 0),
        expr: one(rt, alloc, Symbol::new(Span(0, 0), kind)),
        condition: None,
        action: None,
        attributes: List::new(alloc),
        origin: origin_at(rt, alloc, 0),
    }
}

/// A rule with this name and one alternative.
fn rule(rt: &impl Abort, alloc: Global, called: &str, only: Alternative) -> GrammarItem {
    GrammarItem::Nonterminal(NonterminalData {
        visibility: Visibility::Pub,
        name: name_of(rt, alloc, called),
        attributes: List::new(alloc),
        span: Span(0, 0),
        args: List::new(alloc),
        type_decl: None,
        alternatives: one(rt, alloc, only),
    })
}

/// A grammar without items.
const EMPTY: &str =
    r#"{"attributes":[],"items":[],"parameters":"","span":[0,0],"type_parameters":"","where_clauses":""}"#;

/// A grammar of one item.
fn grammar(rt: &impl Abort, alloc: Global, item: GrammarItem) -> Box<Grammar> {
    let mut grammar = grammar_of(rt, alloc, EMPTY);
    grammar.items.push(item).expect(rt, "memory");
    grammar
}

/// Whether the grammar is written.
fn is_spelled(rt: &impl Abort, alloc: Global, grammar: &Grammar) -> bool {
    match write_grammar(alloc, grammar) {
        Ok(_) => true,
        Err(WriteError::NotWritten) => false,
        Err(WriteError::Memory) => panic!(rt; "memory"),
    }
}

/// Whether a grammar of this item is written.
fn is_written(rt: &impl Abort, alloc: Global, item: GrammarItem) -> bool {
    let grammar = grammar(rt, alloc, item);
    is_spelled(rt, alloc, &grammar)
}

/// Whether a grammar with this symbol is written.
fn is_symbol_written(rt: &impl Abort, alloc: Global, kind: SymbolKind) -> bool {
    let item = rule(rt, alloc, "S", alternative(rt, alloc, kind));
    is_written(rt, alloc, item)
}

/// Whether a grammar with this terminal is written.
fn is_terminal_written(rt: &impl Abort, alloc: Global, terminal: TerminalString) -> bool {
    is_symbol_written(rt, alloc, SymbolKind::Terminal(terminal))
}

#[test]
fn terminals_without_a_spelling(rt: HostRuntime) {
    check(&rt, is_symbol_written(&rt, rt.alloc(), SymbolKind::Error));
    let bare = TerminalString::Bare(Atom::new(rt.alloc(), "NUM").expect(&rt, "memory"));
    check(&rt, !is_terminal_written(&rt, rt.alloc(), bare));
    check(
        &rt,
        !is_terminal_written(&rt, rt.alloc(), TerminalString::Error),
    );
}

#[test]
fn names_without_a_spelling(rt: HostRuntime) {
    let resolved = SymbolKind::Nonterminal(name_of(&rt, rt.alloc(), "S"));
    check(&rt, !is_symbol_written(&rt, rt.alloc(), resolved));
    let dashed = SymbolKind::AmbiguousId(Atom::new(rt.alloc(), "a-b").expect(&rt, "memory"));
    check(&rt, !is_symbol_written(&rt, rt.alloc(), dashed));
}

/// That a grammar whose rule `S` has this alternative isn't written.
fn refuses(rt: &impl Abort, alloc: Global, only: Alternative) {
    let item = rule(rt, alloc, "S", only);
    check(rt, !is_written(rt, alloc, item));
}

#[test]
fn an_action_for_the_place_before(rt: HostRuntime) {
    let mut only = alternative(&rt, rt.alloc(), SymbolKind::Error);
    only.action = Some(ActionKind::Lookahead);
    refuses(&rt, rt.alloc(), only);
}

#[test]
fn an_action_for_the_place_behind(rt: HostRuntime) {
    let mut only = alternative(&rt, rt.alloc(), SymbolKind::Error);
    only.action = Some(ActionKind::Lookbehind);
    refuses(&rt, rt.alloc(), only);
}

#[test]
fn an_origin_that_is_no_alternative(rt: HostRuntime) {
    let mut only = alternative(&rt, rt.alloc(), SymbolKind::Error);
    only.origin = Origin::PassDown;
    refuses(&rt, rt.alloc(), only);
}

/// The origin in the rule S at this place.
fn origin_at(rt: &impl Abort, alloc: Global, place: u32) -> Origin {
    Origin::Alternative {
        rule: name_of(rt, alloc, "S"),
        args: List::new(alloc),
        place,
    }
}

#[test]
fn an_origin_at_another_place(rt: HostRuntime) {
    let mut only = alternative(&rt, rt.alloc(), SymbolKind::Error);
    only.origin = origin_at(&rt, rt.alloc(), 1);
    refuses(&rt, rt.alloc(), only);
}

#[test]
fn a_span_that_ends_before_it_begins(rt: HostRuntime) {
    let mut only = alternative(&rt, rt.alloc(), SymbolKind::Error);
    only.span = Span(2, 1);
    refuses(&rt, rt.alloc(), only);
}

#[test]
fn a_span_beyond_the_limit(rt: HostRuntime) {
    let mut only = alternative(&rt, rt.alloc(), SymbolKind::Error);
    only.span = Span(0, 4_294_967_296);
    refuses(&rt, rt.alloc(), only);
}

/// Whether a grammar is written whose only rule has this name, with an origin in the rule S.
fn is_rule_written(rt: &impl Abort, alloc: Global, called: &str) -> bool {
    let only = alternative(rt, alloc, SymbolKind::Error);
    is_written(rt, alloc, rule(rt, alloc, called, only))
}

/// A name that is none, and an origin in another rule.
#[test]
fn names_of_rules_without_a_spelling(rt: HostRuntime) {
    check(&rt, !is_rule_written(&rt, rt.alloc(), "1S"));
    check(&rt, !is_rule_written(&rt, rt.alloc(), "Other"));
}

#[test]
fn entries_of_a_tokenizer(rt: HostRuntime) {
    let item = GrammarItem::InternToken(InternToken {
        match_entries: List::new(rt.alloc()),
    });
    check(&rt, !is_written(&rt, rt.alloc(), item));
}

/// A match block of this entry.
fn block_of(rt: &impl Abort, alloc: Global, entry: MatchItem) -> MatchToken {
    let items = one(rt, alloc, entry);
    MatchToken::new(alloc, MatchContents { items }, Span(0, 0)).expect(rt, "memory")
}

#[test]
fn an_entry_mapped_to_error_recovery(rt: HostRuntime) {
    let literal = TerminalLiteral::Quoted(Atom::new(rt.alloc(), "a").expect(&rt, "memory"));
    let mapping = MatchMapping::Terminal(TerminalString::Error);
    let entry = MatchItem::Mapped(literal, mapping, Span(0, 0));
    let block = GrammarItem::MatchToken(block_of(&rt, rt.alloc(), entry));
    check(&rt, !is_written(&rt, rt.alloc(), block));
}

/// Whether the grammar is written with this prefix.
fn is_spelled_with(rt: &impl Abort, alloc: Global, grammar: &mut Grammar, prefix: &str) -> bool {
    grammar.prefix = Atom::new(alloc, prefix).expect(rt, "memory");
    is_spelled(rt, alloc, grammar)
}

/// That it is written with the shortest prefix alone, which is longer where two underscores occur in a text.
fn wants_the_shortest(rt: &impl Abort, alloc: Global, grammar: &mut Grammar) {
    check(rt, is_spelled(rt, alloc, grammar));
    check(rt, !is_spelled_with(rt, alloc, grammar, "___"));
    grammar.where_clauses = Atom::new(alloc, "T: a__B").expect(rt, "memory");
    check(rt, is_spelled(rt, alloc, grammar));
    check(rt, !is_spelled_with(rt, alloc, grammar, "__"));
}

/// A grammar whose rule `S` has one symbol.
fn grammar_of_one(rt: &impl Abort, alloc: Global) -> Box<Grammar> {
    let item = rule(rt, alloc, "S", alternative(rt, alloc, SymbolKind::Error));
    grammar(rt, alloc, item)
}

/// The prefix is the shortest run of underscores that occurs in no text.
#[test]
fn another_prefix(rt: HostRuntime) {
    let mut grammar = grammar_of_one(&rt, rt.alloc());
    wants_the_shortest(&rt, rt.alloc(), &mut *grammar);
}
