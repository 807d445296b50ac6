//! Grammars and trees from JSON, what is prepared of grammars, and what trees over productions stand for.

use crate::check::{boxed, check};
use lalrpop_grammar::{Atom, NonterminalString, WrittenTree};
use lalrpop_grammar_repr::methods::Method;
use lalrpop_grammar_repr::{Grammar, Production, Session};
use lalrpop_json_grammar::{read_grammar, read_tree};
use lalrpop_judge::judge_tree;
use lalrpop_lr1::ExpandedTree;
use lalrpop_run_parser::folding::{fold, unfold};
use lalrpop_run_parser::{Parser, Prepared, generate, prepare};
use serde_json::Value;
use std::alloc::Global;
use std::process::Abort;

/// The JSON value. It is boxed, as all that is large here: a box is dropped by one call.
fn json_value(rt: &impl Abort, alloc: Global, json: &str) -> Box<Value> {
    let value = Value::from_str(alloc, json).expect(rt, "JSON");
    boxed(rt, alloc, value)
}

/// The grammar that the JSON spells, prepared for the start: without features, with macros in macros as deep as they usually may stand.
pub(crate) fn prepared_grammar(
    rt: &impl Abort,
    alloc: Global,
    json: &str,
    start: &str,
) -> Box<Prepared> {
    let value = json_value(rt, alloc, json);
    let start = Atom::new(alloc, start).expect(rt, "memory");
    let session = Session {
        features: Vec::new(alloc),
        macro_recursion_limit: 200,
    };
    let grammar = read_grammar(alloc, &value).expect(rt, "a grammar");
    let prepared = prepare(alloc, grammar, &start, session).expect(rt, "a preparation");
    boxed(rt, alloc, prepared)
}

/// The parser of the grammar by canonical states.
pub(crate) fn parser_of<'p>(
    rt: &impl Abort,
    alloc: Global,
    prepared: &'p Prepared,
) -> Box<Parser<'p>> {
    let parser = generate(alloc, prepared, Method::Canonical).expect(rt, "a parser");
    boxed(rt, alloc, parser)
}

/// The tree that the JSON spells.
pub(crate) fn tree_of_json(rt: &impl Abort, alloc: Global, json: &str) -> Box<WrittenTree> {
    let value = json_value(rt, alloc, json);
    let tree = read_tree(alloc, &value).expect(rt, "a tree");
    boxed(rt, alloc, tree)
}

/// What the tree, which has to be admitted, is folded to.
pub(crate) fn folded_of<'p>(
    rt: &impl Abort,
    alloc: Global,
    prepared: &'p Prepared,
    tree: &WrittenTree,
) -> ExpandedTree<'p> {
    let admitted = judge_tree(alloc, prepared.grammar(), &[], prepared.start(), tree);
    check(rt, admitted.expect(rt, "a judgement"));
    fold(alloc, prepared, tree).expect(rt, "an admitted tree")
}

/// Whether the tree stands for this written tree.
pub(crate) fn stands_for(
    rt: &impl Abort,
    alloc: Global,
    prepared: &Prepared,
    tree: &ExpandedTree<'_>,
    written: &WrittenTree,
) -> bool {
    let unfolded = unfold(alloc, prepared, tree).expect(rt, "memory");
    unfolded == *written
}

/// The nonterminal of that name.
pub(crate) fn name_of(rt: &impl Abort, alloc: Global, name: &str) -> NonterminalString {
    NonterminalString(Atom::new(alloc, name).expect(rt, "memory"))
}

/// The nonterminal's production at that place.
pub(crate) fn production_at<'g>(
    rt: &impl Abort,
    alloc: Global,
    grammar: &'g Grammar,
    name: &str,
    place: usize,
) -> &'g Production {
    let name = name_of(rt, alloc, name);
    let productions = grammar.productions_for(&name);
    productions.get(place).expect(rt, "such a production")
}
