//! Items: their questions and texts.

use crate::check::{check, text_is};
use crate::grammars::{grammar_of, production_at, token_of};
use lalrpop_grammar_repr::{Grammar, Production};
use lalrpop_grammar_symbols::NonterminalString;
use lalrpop_lr1_core::{Item, Lr0Item, Lr1Item};
use lalrpop_sets::TokenSet;
use std::alloc::Global;
use std::process::Abort;

/// `E = E "+" T or T; T = "n" or empty`
const LINES: &str = "E: E \"+\" T\nE: T\nT: \"n\"\nT:\n";

/// What an item says whose dot stands in front of the sum: its own nonterminal stands there, and not the other.
fn in_front(rt: &impl Abort, front: &Lr0Item<'_>, other: &NonterminalString) {
    check(rt, front.can_shift() & !front.can_reduce());
    check(rt, front.prefix().is_empty());
    let own = &front.production.nonterminal;
    check(
        rt,
        front.can_shift_nonterminal(own) & !front.can_shift_nonterminal(other),
    );
    let (_, behind) = front.shift_symbol().expect(rt, "a symbol");
    check(rt, behind.len() == 2);
}

/// What an item says whose dot stands at the end.
fn at_end(rt: &impl Abort, end: &Lr0Item<'_>) {
    check(rt, end.can_reduce() & !end.can_shift());
    check(rt, end.shift_symbol().is_none());
    check(rt, end.shifted_item().expect(rt, "memory").is_none());
}

/// What items of the sum say whose dots stand between its symbols.
fn inside(rt: &impl Abort, sum: &Production) {
    let moved = Item::lr0(sum, 2).shifted_item().expect(rt, "memory");
    let (_, next) = moved.expect(rt, "an item");
    check(rt, next.index == 3);
    let sets = Item::lr0(sum, 1).symbol_sets();
    check(
        rt,
        (sets.prefix.len() == 1) & sets.cursor.is_some() & (sets.suffix.len() == 1),
    );
}

/// The texts of items without a lookahead and with one, what the last is without it, and its copy.
fn texts(
    rt: &impl Abort,
    alloc: Global,
    sum: &Production,
    empty: &Production,
    ahead: &Lr1Item<'_>,
) {
    let one = Item::lr0(sum, 1);
    let alone = Item::lr0(empty, 0);
    let text = format!(in alloc; "{one:?}; {alone:?}; {ahead:?}").expect(rt, "memory");
    check(
        rt,
        text_is(text, r#"E = E (*) "+" T; T = (*); T = (*) {1}"#),
    );
    check(rt, ahead.to_lr0() == alone);
    check(rt, ahead.try_clone().expect(rt, "memory") == *ahead);
}

fn answer(rt: &impl Abort, alloc: Global, grammar: &Grammar) {
    let sum = production_at(rt, alloc, grammar, "E", 0);
    let empty = production_at(rt, alloc, grammar, "T", 1);
    in_front(rt, &Item::lr0(sum, 0), &empty.nonterminal);
    at_end(rt, &Item::lr0(sum, 3));
    inside(rt, sum);
    let n = token_of(rt, alloc, "n");
    let ahead = TokenSet::from_token(alloc, &n, &grammar.terminals).expect(rt, "memory");
    let item = Item::lr0(empty, 0).with_lookahead(ahead);
    texts(rt, alloc, sum, empty, &item);
}

#[test]
fn questions_and_texts_of_items(rt: HostRuntime) {
    let grammar = grammar_of(&rt, rt.alloc(), LINES);
    answer(&rt, rt.alloc(), &grammar);
}
