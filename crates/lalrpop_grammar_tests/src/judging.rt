//! The judge, with tokens and without.

use crate::check::{boxed, check};
use crate::grammars::grammar_of;
use lalrpop_grammar::{Atom, ScanToken, WrittenTree};
use lalrpop_json_grammar::read_tree;
use lalrpop_judge::{judge, judge_tree};
use serde_json::Value;
use std::alloc::Global;
use std::process::Abort;

/// `pub S = "a" S | "b"`
const GRAMMAR: &str =
    r#"{"attributes":[],"items":[{"alternatives":[{"action":null,"attributes":[],"condition":null,"expr":[{"kind":"terminal","span":[0,0],"terminal":{"quoted":"a"}},{"kind":"id","name":"S","span":[0,0]}],"span":[0,0]},{"action":null,"attributes":[],"condition":null,"expr":[{"kind":"terminal","span":[0,0],"terminal":{"quoted":"b"}}],"span":[0,0]}],"args":[],"attributes":[],"kind":"rule","name":"S","span":[0,0],"type":null,"visibility":"pub"}],"parameters":"","span":[0,0],"type_parameters":"","where_clauses":""}"#;

/// `S#0("a", S#1("b"))`
const TREE: &str =
    r#"{"args":[],"children":[{"span":[0,1],"terminal":{"quoted":"a"},"text":"a"},{"args":[],"children":[{"span":[1,2],"terminal":{"quoted":"b"},"text":"b"}],"place":1,"rule":"S"}],"place":0,"rule":"S"}"#;

/// The same with the places of the two alternatives exchanged.
const OTHER: &str =
    r#"{"args":[],"children":[{"span":[0,1],"terminal":{"quoted":"a"},"text":"a"},{"args":[],"children":[{"span":[1,2],"terminal":{"quoted":"b"},"text":"b"}],"place":0,"rule":"S"}],"place":1,"rule":"S"}"#;

fn tree(rt: &impl Abort, alloc: Global, text: &str) -> Box<WrittenTree> {
    let value = Value::from_str(alloc, text).expect(rt, "JSON");
    let value = boxed(rt, alloc, value);
    boxed(rt, alloc, read_tree(alloc, &value).expect(rt, "a tree"))
}

/// Whether `S` admits the tree with these tokens.
fn admits(rt: &impl Abort, alloc: Global, tree: &WrittenTree, tokens: &[ScanToken<'_>]) -> bool {
    let start = Atom::new(alloc, "S").expect(rt, "memory");
    let grammar = grammar_of(rt, alloc, GRAMMAR);
    judge(alloc, &grammar, &[], &start, tree, tokens).expect(rt, "an answer")
}

/// Whether `S` admits the tree with the tokens of its leaves, so many of the last left out.
fn admits_front(rt: &impl Abort, alloc: Global, tree: &WrittenTree, left_out: usize) -> bool {
    let tokens = tree.tokens(alloc).expect(rt, "memory");
    let front = tokens.len().saturating_sub(left_out);
    let front = tokens.as_slice().get(..front).expect(rt, "a front");
    admits(rt, alloc, tree, front)
}

#[test]
fn a_tree_with_the_tokens_at_its_leaves_and_with_fewer(rt: HostRuntime) {
    let tree = tree(&rt, rt.alloc(), TREE);
    check(&rt, admits_front(&rt, rt.alloc(), &tree, 0));
    check(&rt, !admits_front(&rt, rt.alloc(), &tree, 1));
    check(&rt, !admits(&rt, rt.alloc(), &tree, &[]));
}

#[test]
fn a_tree_that_is_not_admitted_with_its_tokens(rt: HostRuntime) {
    let other = tree(&rt, rt.alloc(), OTHER);
    check(&rt, !admits_front(&rt, rt.alloc(), &other, 0));
}

/// Whether `S` admits the tree with the tokens at its leaves.
fn admits_alone(rt: &impl Abort, alloc: Global, tree: &WrittenTree) -> bool {
    let start = Atom::new(alloc, "S").expect(rt, "memory");
    let grammar = grammar_of(rt, alloc, GRAMMAR);
    judge_tree(alloc, &grammar, &[], &start, tree).expect(rt, "an answer")
}

#[test]
fn trees_over_their_own_leaves(rt: HostRuntime) {
    let right = tree(&rt, rt.alloc(), TREE);
    check(&rt, admits_alone(&rt, rt.alloc(), &right));
    let other = tree(&rt, rt.alloc(), OTHER);
    check(&rt, !admits_alone(&rt, rt.alloc(), &other));
}
