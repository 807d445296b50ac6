//! Grammars with each kind of part: copies and small questions.

use crate::check::{boxed, check, equals};
use lalrpop_grammar::{
    ActionKind, Atom, Attribute, Grammar, GrammarItem, InternToken, List, MatchContents,
    MatchEntry, MatchItem, MatchMapping, MatchToken, NonterminalString, Origin, Span,
    TerminalLiteral, TerminalString, Visibility,
};
use lalrpop_json_grammar::read_grammar;
use serde_json::Value;
use std::alloc::Global;
use std::process::Abort;

/// A macro, an import, a match block and two extern blocks, with each kind of symbol, type, condition and attribute.
const FULL: &str =
    r#"{"attributes":[{"arg":null,"id":"LALR","span":[0,1]}],"items":[{"alternatives":[{"action":{"fallible":"f()"},"attributes":[{"arg":{"paren":[{"arg":{"equal":"1"},"id":"level","span":[1,2]}]},"id":"precedence","span":[1,3]}],"condition":{"lhs":"K","op":"!~","rhs":"a|b","span":[2,3]},"expr":[{"kind":"named","mutable":true,"name":"x","span":[4,5],"symbol":{"kind":"repeat","op":"+","span":[4,5],"symbol":{"kind":"id","name":"K","span":[4,5]}}},{"kind":"choose","span":[5,6],"symbol":{"expr":[{"kind":"terminal","span":[5,6],"terminal":{"quoted":"a"}},{"args":[{"kind":"terminal","span":[5,6],"terminal":{"regex":"b"}}],"kind":"macro","name":"M","span":[5,6]}],"kind":"group","span":[5,6]}},{"kind":"lookahead","span":[7,7]},{"kind":"lookbehind","span":[7,7]},{"kind":"error","span":[7,8]}],"span":[2,9]},{"action":{"user":"()"},"attributes":[],"condition":{"lhs":"K","op":"==","rhs":"a","span":[0,0]},"expr":[],"span":[0,0]}],"args":["K"],"attributes":[{"arg":{"equal":"t"},"id":"doc","span":[0,1]}],"kind":"rule","name":"N","span":[0,9],"type":{"args":[{"lifetime":"'a","mutable":true,"ref":{"id":"T"}},{"lifetime":null,"mutable":false,"ref":{"text":"dyn X"}},{"symbol":{"kind":"id","name":"K","span":[0,0]}},{"tuple":[]}],"path":"a::B"},"visibility":{"pub_in":"crate::a"}},{"kind":"use","text":"a::b"},{"contents":[[{"literal":{"regex":"[0-9]+"},"map":{"bare":"NUM"},"span":[1,2]},{"literal":{"quoted":" "},"map":"skip","span":[0,0]}],[{"literal":{"quoted":"x"},"map":null,"span":[0,0]},{"catch_all":[3,4]}]],"kind":"match","span":[0,0]},{"associated":[{"name":"Location","type":"L"},{"name":"Error","type":"E"}],"enum":{"conversions":[{"from":{"bare":"N"},"to":"Tok::N"},{"from":{"regex":"r"},"to":"_"}],"type":"Tok"},"kind":"extern","span":[0,0]},{"associated":[],"enum":null,"kind":"extern","span":[0,0]}],"parameters":"x: u8","span":[0,9],"type_parameters":"'a","where_clauses":"T: U"}"#;

/// The entries of a tokenizer.
fn entries(rt: &impl Abort, alloc: Global) -> InternToken {
    let entry = MatchEntry {
        precedence: 3,
        match_literal: TerminalLiteral::Regex(Atom::new(alloc, "r").expect(rt, "memory")),
        user_name: MatchMapping::Terminal(TerminalString::Error),
    };
    let entries = vec![in alloc; entry].expect(rt, "memory");
    InternToken {
        match_entries: List::from_vec(entries),
    }
}

/// The grammar that the JSON spells. It is boxed, as all that is large here: a box is dropped by one call.
pub(crate) fn grammar_of(rt: &impl Abort, alloc: Global, json: &str) -> Box<Grammar> {
    let value = Value::from_str(alloc, json).expect(rt, "JSON");
    let value = boxed(rt, alloc, value);
    let grammar = read_grammar(alloc, &value).expect(rt, "a grammar");
    boxed(rt, alloc, grammar)
}

/// The grammar, with a tokenizer's entries behind its items.
fn full(rt: &impl Abort, alloc: Global) -> Box<Grammar> {
    let mut grammar = grammar_of(rt, alloc, FULL);
    let entries = GrammarItem::InternToken(entries(rt, alloc));
    grammar.items.push(entries).expect(rt, "memory");
    grammar
}

/// Whether a copy of the grammar equals it.
fn equals_its_copy(rt: &impl Abort, alloc: Global, grammar: &Grammar) -> bool {
    equals(grammar, grammar.try_clone(alloc).expect(rt, "memory"))
}

#[test]
fn a_copy_of_a_grammar_equals_it(rt: HostRuntime) {
    let grammar = full(&rt, rt.alloc());
    check(&rt, equals_its_copy(&rt, rt.alloc(), &grammar));
}

/// Whether a copy of the origin equals it.
fn is_copied(rt: &impl Abort, alloc: Global, origin: &Origin) -> bool {
    equals(origin, origin.try_clone(alloc).expect(rt, "memory"))
}

// No grammar that is read holds origins.
#[test]
fn copies_of_origins(rt: HostRuntime) {
    let origins = [
        Origin::Start,
        Origin::PassDown,
        Origin::PlusOne,
        Origin::PlusMore,
        Origin::StarNone,
        Origin::StarSome,
        Origin::OptNone,
        Origin::OptSome,
        Origin::Group,
        Origin::Look,
    ];
    for origin in &origins {
        check(&rt, is_copied(&rt, rt.alloc(), origin));
    }
}

#[test]
fn a_copy_of_the_origin_of_an_alternative(rt: HostRuntime) {
    let rule = NonterminalString(Atom::new(rt.alloc(), "S").expect(&rt, "memory"));
    let args = List::new(rt.alloc());
    let place = 7;
    let origin = Origin::Alternative { rule, args, place };
    check(&rt, is_copied(&rt, rt.alloc(), &origin));
}

/// Whether a copy of the action equals it.
fn action_is_copied(rt: &impl Abort, action: &ActionKind) -> bool {
    equals(action, action.try_clone().expect(rt, "memory"))
}

#[test]
fn copies_of_the_actions_of_places(rt: HostRuntime) {
    check(&rt, action_is_copied(&rt, &ActionKind::Lookahead));
    check(&rt, action_is_copied(&rt, &ActionKind::Lookbehind));
}

fn has_two_groups(grammar: &Grammar) -> bool {
    match grammar.match_token() {
        Some(block) => block.contents.len() == 2,
        None => false,
    }
}

fn has_one_entry(grammar: &Grammar) -> bool {
    match grammar.intern_token() {
        Some(tokens) => tokens.match_entries.len() == 1,
        None => false,
    }
}

fn has_tokens_of_the_user(grammar: &Grammar) -> bool {
    match grammar.enum_token() {
        Some(tokens) => tokens.type_text.as_str() == "Tok",
        None => false,
    }
}

/// Whether the first extern block gives a type of this name, with this text.
fn has_type(rt: &impl Abort, alloc: Global, grammar: &Grammar, name: &str, text: &str) -> bool {
    let name = Atom::new(alloc, name).expect(rt, "memory");
    match grammar.extern_token() {
        Some(block) => match block.associated_type(&name) {
            Some(found) => found.type_text.as_str() == text,
            None => false,
        },
        None => false,
    }
}

#[test]
fn questions_of_a_grammar(rt: HostRuntime) {
    let grammar = full(&rt, rt.alloc());
    check(&rt, has_two_groups(&grammar));
    check(&rt, has_one_entry(&grammar));
    check(&rt, has_tokens_of_the_user(&grammar));
}

#[test]
fn types_of_an_extern_block(rt: HostRuntime) {
    let grammar = full(&rt, rt.alloc());
    check(&rt, has_type(&rt, rt.alloc(), &grammar, "Error", "E"));
    check(&rt, !has_type(&rt, rt.alloc(), &grammar, "Token", "E"));
}

fn begins_with_a_public_macro(grammar: &Grammar) -> bool {
    match grammar.items.as_slice() {
        [item, ..] => match item.as_nonterminal() {
            Some(rule) => item.is_macro_def() & rule.visibility.is_pub(),
            None => false,
        },
        [] => false,
    }
}

/// Whether the first of the attributes has this text for its argument.
fn begins_with_text(attributes: &[Attribute], name: &str, text: &str) -> bool {
    match attributes {
        [first, ..] => match first.get_arg_equal() {
            Some((found, value)) => (found.as_str() == name) & (value.as_str() == text),
            None => false,
        },
        [] => false,
    }
}

fn begins_with_a_documented_rule(grammar: &Grammar) -> bool {
    match grammar.items.as_slice() {
        [GrammarItem::Nonterminal(rule), ..] => {
            begins_with_text(rule.attributes.as_slice(), "doc", "t")
        }
        _ => false,
    }
}

/// Whether the grammar has one rule, of that name; asked once more, there is none again.
fn has_rule_alone(grammar: &Grammar, name: &str) -> bool {
    let mut rules = grammar.rules();
    let first = rules.next();
    let others = rules.next().is_some() | rules.next().is_some();
    match first {
        Some(rule) => !others & (rule.name.0.as_str() == name),
        None => false,
    }
}

#[test]
fn rules_of_a_grammar(rt: HostRuntime) {
    let grammar = full(&rt, rt.alloc());
    check(&rt, has_rule_alone(&grammar, "N"));
}

#[test]
fn questions_of_a_rule(rt: HostRuntime) {
    let grammar = full(&rt, rt.alloc());
    check(&rt, begins_with_a_public_macro(&grammar));
    check(&rt, begins_with_a_documented_rule(&grammar));
    check(
        &rt,
        !begins_with_text(grammar.attributes.as_slice(), "LALR", ""),
    );
    check(&rt, Visibility::Pub.is_pub());
    check(&rt, !Visibility::Priv.is_pub());
}

/// Copies the groups of the grammar's match block behind those of another.
fn add_groups(rt: &impl Abort, alloc: Global, grammar: &Grammar, block: &mut MatchToken) {
    if let Some(written) = grammar.match_token() {
        for group in written.contents.as_slice() {
            let copy = group.try_clone(alloc).expect(rt, "memory");
            block.add(copy).expect(rt, "memory");
        }
    }
}

/// Copies the groups of the full grammar's match block behind those of another.
fn add_full_groups(rt: &impl Abort, alloc: Global, block: &mut MatchToken) {
    let grammar = full(rt, alloc);
    add_groups(rt, alloc, &grammar, block);
}

#[test]
fn groups_of_a_match_block(rt: HostRuntime) {
    let alloc = rt.alloc();
    let items = List::new(alloc);
    let contents = MatchContents { items };
    let mut block = MatchToken::new(alloc, contents, Span(3, 4)).expect(&rt, "memory");
    check(&rt, (block.contents.len(), block.span) == (1, Span(3, 4)));
    add_full_groups(&rt, alloc, &mut block);
    check(&rt, block.contents.len() == 3);
}

fn begins_at(entries: &[MatchItem], span: Span) -> bool {
    match entries {
        [first, ..] => first.span() == span,
        [] => false,
    }
}

#[test]
fn places_of_entries(rt: HostRuntime) {
    check(
        &rt,
        begins_at(&[MatchItem::CatchAll(Span(1, 2))], Span(1, 2)),
    );
}
