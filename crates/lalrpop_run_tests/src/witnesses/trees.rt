//! Trees over productions, made by hand.

use crate::given::production_at;
use lalrpop_grammar_repr::Production;
use lalrpop_lr1::ExpandedTree;
use lalrpop_run_parser::Prepared;
use std::alloc::Global;
use std::process::Abort;

/// What a tree is like, with the text of its tokens, each of which is a leaf.
#[derive(Clone, Copy)]
pub(crate) enum Shape {
    /// A production under the start.
    Whole(&'static str),
    /// A production alone.
    Below(&'static str),
    /// The last leaf alone.
    Leaf(&'static str),
}

/// The tokens of the text, as trees.
pub(crate) fn leaves_of<'g>(
    rt: &impl Abort,
    alloc: Global,
    prepared: &Prepared,
    text: &str,
) -> Vec<ExpandedTree<'g>> {
    let tokens = prepared.scanner().scan(alloc, text).expect(rt, "tokens");
    let mut trees = Vec::new(alloc);
    for token in tokens.iter() {
        let terminal = token.terminal.try_clone().expect(rt, "memory");
        let leaf = ExpandedTree::leaf(alloc, terminal, token.span).expect(rt, "memory");
        trees.push(leaf).expect(rt, "memory");
    }
    trees
}

/// The production over the tokens of the text.
fn node_over<'g>(
    rt: &impl Abort,
    alloc: Global,
    prepared: &Prepared,
    production: &'g Production,
    text: &str,
) -> ExpandedTree<'g> {
    ExpandedTree::node(production, leaves_of(rt, alloc, prepared, text)).expect(rt, "memory")
}

/// The tree under the start.
fn under_start<'g>(
    rt: &impl Abort,
    alloc: Global,
    prepared: &'g Prepared,
    below: ExpandedTree<'g>,
) -> ExpandedTree<'g> {
    let name = prepared.start_name().0.as_str();
    let start = production_at(rt, alloc, prepared.expansion(), name, 0);
    let children = vec![in alloc; below].expect(rt, "memory");
    ExpandedTree::node(start, children).expect(rt, "memory")
}

/// The tree of this shape, whose production is this one.
pub(crate) fn tree_of<'g>(
    rt: &impl Abort,
    alloc: Global,
    prepared: &'g Prepared,
    production: &'g Production,
    shape: Shape,
) -> ExpandedTree<'g> {
    match shape {
        Shape::Whole(text) => {
            let below = node_over(rt, alloc, prepared, production, text);
            under_start(rt, alloc, prepared, below)
        }
        Shape::Below(text) => node_over(rt, alloc, prepared, production, text),
        Shape::Leaf(text) => {
            let mut leaves = leaves_of(rt, alloc, prepared, text);
            leaves.pop().expect(rt, "a leaf")
        }
    }
}
