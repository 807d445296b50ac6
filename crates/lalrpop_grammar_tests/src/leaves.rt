//! Leaves and tokens of trees.

use crate::check::{check, equals};
use lalrpop_grammar::{Atom, Leaf, ScanToken, Span, TerminalString, WrittenTree};
use lalrpop_json_grammar::read_tree;
use serde_json::Value;
use std::alloc::Global;
use std::process::Abort;

/// `S#0([("1", @), ?("2")], S#0(?(), "3"))`
const NESTED: &str =
    r#"{"args":[],"children":[{"list":[{"group":[{"span":[0,1],"terminal":{"bare":"A"},"text":"1"},{"look":null}]},{"opt":{"span":[2,3],"terminal":{"bare":"B"},"text":"2"}}]},{"args":[],"children":[{"opt":null},{"span":[5,6],"terminal":{"bare":"A"},"text":"3"}],"place":0,"rule":"S"}],"place":0,"rule":"S"}"#;

fn nested_tree(rt: &impl Abort, alloc: Global) -> Box<WrittenTree> {
    let value = Value::from_str(alloc, NESTED).expect(rt, "JSON");
    let tree = read_tree(alloc, &value).expect(rt, "a tree");
    Box::new(alloc, tree).expect(rt, "memory")
}

fn is_bare(terminal: &TerminalString, name: &str) -> bool {
    match terminal {
        TerminalString::Bare(found) => found.as_str() == name,
        _ => false,
    }
}

/// Whether there is a leaf of this bare name, with this text, there.
fn is_leaf(leaf: Option<Leaf<'_>>, name: &str, text: &str, span: Span) -> bool {
    match leaf {
        Some(leaf) => is_bare(leaf.terminal, name) & (leaf.text == text) & (leaf.span == span),
        None => false,
    }
}

fn come_in_order(rt: &impl Abort, alloc: Global, tree: &WrittenTree) {
    let mut leaves = tree.leaves(alloc).expect(rt, "memory");
    let first = is_leaf(leaves.next(), "A", "1", Span(0, 1));
    let second = is_leaf(leaves.next(), "B", "2", Span(2, 3));
    let third = is_leaf(leaves.next(), "A", "3", Span(5, 6));
    check(rt, first & second & third);
    check(rt, leaves.next().is_none() & leaves.next().is_none());
}

#[test]
fn leaves_from_left_to_right(rt: HostRuntime) {
    let tree = nested_tree(&rt, rt.alloc());
    come_in_order(&rt, rt.alloc(), &tree);
}

/// The terminal of the bare name.
fn bare(rt: &impl Abort, alloc: Global, name: &str) -> TerminalString {
    TerminalString::Bare(Atom::new(alloc, name).expect(rt, "memory"))
}

/// The token of the bare name B at the second leaf.
fn second_token(rt: &impl Abort, alloc: Global) -> ScanToken<'static> {
    ScanToken {
        terminal: bare(rt, alloc, "B"),
        text: "2",
        span: Span(2, 3),
    }
}

/// Whether these are the three tokens, of which the second is that of the second leaf, and the last has the text of the last.
fn are_tokens(rt: &impl Abort, alloc: Global, tokens: &[ScanToken<'_>]) -> bool {
    match tokens {
        [_, second, third] => equals(second, second_token(rt, alloc)) & (third.text == "3"),
        _ => false,
    }
}

fn has_tokens(rt: &impl Abort, alloc: Global, tree: &WrittenTree) -> bool {
    let tokens = tree.tokens(alloc).expect(rt, "memory");
    are_tokens(rt, alloc, tokens.as_slice())
}

#[test]
fn tokens_of_the_leaves(rt: HostRuntime) {
    let tree = nested_tree(&rt, rt.alloc());
    check(&rt, has_tokens(&rt, rt.alloc(), &tree));
}

/// Whether a copy of the tree equals it.
fn equals_its_copy(rt: &impl Abort, alloc: Global, tree: &WrittenTree) -> bool {
    equals(tree, tree.try_clone(alloc).expect(rt, "memory"))
}

/// Whether a copy of the second leaf's token equals it.
fn token_is_copied(rt: &impl Abort, alloc: Global) -> bool {
    let token = second_token(rt, alloc);
    equals(&token, token.try_clone().expect(rt, "memory"))
}

#[test]
fn copies_of_trees_and_tokens(rt: HostRuntime) {
    let alloc = rt.alloc();
    let tree = nested_tree(&rt, alloc);
    check(&rt, equals_its_copy(&rt, alloc, &tree));
    check(&rt, token_is_copied(&rt, alloc));
}

/// The leaf of the terminal there.
fn leaf_at(terminal: &TerminalString, span: Span) -> Leaf<'_> {
    Leaf {
        terminal,
        text: "1",
        span,
    }
}

/// That leaves of these equal terminals are equal in one place, and not in two.
fn compare_by_content(rt: &impl Abort, a: &TerminalString, b: &TerminalString) {
    let leaf = leaf_at(a, Span(0, 1));
    let copy = leaf;
    check(rt, copy == leaf_at(b, Span(0, 1)));
    check(rt, leaf != leaf_at(b, Span(0, 2)));
}

#[test]
fn leaves_compare_by_content(rt: HostRuntime) {
    let a = bare(&rt, rt.alloc(), "A");
    let b = bare(&rt, rt.alloc(), "A");
    compare_by_content(&rt, &a, &b);
}
