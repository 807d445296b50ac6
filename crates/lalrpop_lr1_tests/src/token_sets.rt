//! Tokens and sets of tokens.

use crate::check::{check, is_debug, is_shown, says, shows, text_is};
use crate::grammars::{grammar_of, terminal_of, token_of};
use lalrpop_grammar_repr::TerminalSet;
use lalrpop_sets::{Collection, Token, TokenRef, TokenSet};
use std::alloc::Global;
use std::process::Abort;

/// A grammar whose terminals are a, b and c.
const LETTERS: &str = "S: \"c\" \"a\" \"b\"\n";

/// The set of the two tokens.
fn set_of(
    rt: &impl Abort,
    alloc: Global,
    one: &Token,
    other: &Token,
    terminals: &TerminalSet,
) -> TokenSet {
    let mut set = TokenSet::from_token(alloc, one, terminals).expect(rt, "memory");
    set.insert(other, terminals).expect(rt, "memory");
    set
}

/// Puts the token, the error and the end into the set, which is empty. A terminal that isn't the grammar's never comes.
fn put_three(
    rt: &impl Abort,
    alloc: Global,
    set: &mut TokenSet,
    b: &Token,
    terminals: &TerminalSet,
) {
    check(rt, set.len() == 0);
    let x = token_of(rt, alloc, "x");
    says(rt, set.insert_with(b, terminals), true);
    says(rt, set.insert_with(b, terminals), false);
    says(rt, set.insert_with(&x, terminals), false);
    says(rt, set.insert(&Token::Error, terminals), true);
    says(rt, set.insert_eof(terminals), true);
    check(rt, set.len() == 3);
}

/// Takes the end out of the set of these three.
fn take_the_end(
    rt: &impl Abort,
    set: &mut TokenSet,
    a: &Token,
    b: &Token,
    terminals: &TerminalSet,
) {
    check(
        rt,
        set.contains(b, terminals) & set.contains_eof(terminals) & !set.contains(a, terminals),
    );
    check(rt, set.take_eof(terminals));
    check(rt, !set.take_eof(terminals) & (set.len() == 2));
}

fn what_is_put_in_is_there(
    rt: &impl Abort,
    alloc: Global,
    a: &Token,
    b: &Token,
    terminals: &TerminalSet,
) {
    let mut set = TokenSet::new(alloc, terminals).expect(rt, "memory");
    put_three(rt, alloc, &mut set, b, terminals);
    take_the_end(rt, &mut set, a, b, terminals);
}

fn all_tokens_of_a_grammar(rt: &impl Abort, alloc: Global, terminals: &TerminalSet) {
    let all = TokenSet::all(alloc, terminals).expect(rt, "memory");
    check(rt, is_debug(rt, alloc, &all, "{0, 1, 2, 3}"));
    shows(rt, alloc, Ok(all), terminals, r#"["a", "b", "c", Eof]"#);
}

fn one_token_alone(rt: &impl Abort, alloc: Global, terminals: &TerminalSet) {
    let mut error = TokenSet::from_token(alloc, &Token::Error, terminals).expect(rt, "memory");
    error.reserve(200).expect(rt, "memory");
    shows(rt, alloc, Ok(error), terminals, "[Error]");
}

/// That the set of the end alone is made in two ways.
fn the_end_alone(rt: &impl Abort, alloc: Global, terminals: &TerminalSet) {
    let end = TokenSet::from_token(alloc, &Token::Eof, terminals).expect(rt, "memory");
    let same = TokenSet::eof(alloc, terminals).expect(rt, "memory");
    check(rt, same == end);
    shows(rt, alloc, Ok(end), terminals, "[Eof]");
}

/// What the sets of a and b, and of b and c, share, and what they have together.
fn what_two_sets_share(
    rt: &impl Abort,
    alloc: Global,
    a: &Token,
    b: &Token,
    c: &Token,
    terminals: &TerminalSet,
) {
    let mut left = set_of(rt, alloc, a, b, terminals);
    let right = set_of(rt, alloc, b, c, terminals);
    check(rt, left.is_intersecting(&right) & !left.is_disjoint(&right));
    let shared = left.intersection(alloc, &right);
    shows(rt, alloc, shared, terminals, r#"["b"]"#);
    says(rt, left.union_with(&right), true);
    says(rt, left.union_with(&right), false);
    check(
        rt,
        is_shown(rt, alloc, &left, terminals, r#"["a", "b", "c"]"#),
    );
}

/// That a copy with more room equals the set, and that the set is less than that with the end put in.
fn equals_its_copy(rt: &impl Abort, set: &TokenSet, terminals: &TerminalSet) {
    let mut copy = set.try_clone().expect(rt, "memory");
    copy.reserve(500).expect(rt, "memory");
    check(rt, copy == *set);
    copy.insert_eof(terminals).expect(rt, "memory");
    check(rt, *set < copy);
}

/// That the set of a and c is less than that of b, and more than nothing.
fn sets_are_compared_as_lists_of_numbers(
    rt: &impl Abort,
    alloc: Global,
    a: &Token,
    b: &Token,
    c: &Token,
    terminals: &TerminalSet,
) {
    let ends = set_of(rt, alloc, a, c, terminals);
    equals_its_copy(rt, &ends, terminals);
    let middle = TokenSet::from_token(alloc, b, terminals).expect(rt, "memory");
    let mut both: TokenSet = Collection::empty(alloc);
    check(rt, (ends < middle) & (both < ends));
    says(rt, Collection::push(&mut both, middle), true);
}

/// The set of the terminal, the error and the end, in order.
fn tokens_come_in_order(rt: &impl Abort, alloc: Global, c: &Token, terminals: &TerminalSet) {
    let mut set = set_of(rt, alloc, &Token::Error, c, terminals);
    says(rt, set.insert_eof(terminals), true);
    shows(rt, alloc, Ok(set), terminals, r#"["c", Eof, Error]"#);
}

fn a_token_and_its_copy(rt: &impl Abort, alloc: Global) {
    let c = Token::Terminal(terminal_of(rt, alloc, "c"));
    let terminal = c.unwrap_terminal();
    let text = format!(in alloc; "{terminal} {c:?} {:?}", TokenRef::Eof).expect(rt, "memory");
    check(rt, text_is(text, r#""c" "c" Eof"#));
    check(rt, c.try_clone().expect(rt, "memory") == c);
}

fn answer(rt: &impl Abort, alloc: Global, terminals: &TerminalSet) {
    let a = token_of(rt, alloc, "a");
    let b = token_of(rt, alloc, "b");
    let c = token_of(rt, alloc, "c");
    what_is_put_in_is_there(rt, alloc, &a, &b, terminals);
    tokens_come_in_order(rt, alloc, &c, terminals);
    what_two_sets_share(rt, alloc, &a, &b, &c, terminals);
    sets_are_compared_as_lists_of_numbers(rt, alloc, &a, &b, &c, terminals);
}

#[test]
fn sets_of_tokens(rt: HostRuntime) {
    let alloc = rt.alloc();
    let grammar = grammar_of(&rt, alloc, LETTERS);
    answer(&rt, alloc, &grammar.terminals);
    all_tokens_of_a_grammar(&rt, alloc, &grammar.terminals);
    one_token_alone(&rt, alloc, &grammar.terminals);
    the_end_alone(&rt, alloc, &grammar.terminals);
    a_token_and_its_copy(&rt, alloc);
}
