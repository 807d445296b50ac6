//! Folding written trees, and unfolding what they are folded to.

use crate::check::{check, check_row};
use crate::given::{folded_of, parser_of, prepared_grammar, tree_of_json};
use crate::parses::grammars::{CALCULATOR, COMMAS, LISTS, PLACES};
use crate::parses::trees::{LEAF, PRODUCT_OF_SUM, SUM_OF_SUM, SWAPPED_LIST};
use lalrpop_grammar::WrittenTree;
use lalrpop_json_grammar::print_tree;
use lalrpop_lr1::ExpandedTree;
use lalrpop_run_parser::Prepared;
use lalrpop_run_parser::folding::{FoldError, fold, foldings_are_inverse, unfold};
use std::alloc::Global;
use std::process::Abort;

/// A text's tree, and what it is folded to.
#[derive(Clone, Copy)]
struct Folding {
    /// The grammar.
    grammar: &'static str,
    /// The rule to start from.
    start: &'static str,
    /// The text.
    text: &'static str,
    /// How many leaves and nodes the tree has once it is folded.
    count: usize,
    /// The tree with what its terminals show in the place of its texts.
    shown: &'static str,
    /// Whether these are its texts, so that it is unfolded to itself.
    same: bool,
    /// Two trees that aren't admitted.
    others: (&'static str, &'static str),
}

// Places are no nodes once they are inlined, nor are options, groups and repeats of none or some. A sum may stand neither in a product
// nor to the right in a sum.
static FOLDINGS: [Folding; 4] = [
    Folding {
        grammar: LISTS,
        start: "S",
        text: "a b",
        count: 5,
        shown: r#"S#0("a", S#1("b"))"#,
        same: true,
        others: (SWAPPED_LIST, LEAF),
    },
    Folding {
        grammar: PLACES,
        start: "S",
        text: "a",
        count: 3,
        shown: r#"S#0(@, "a", @)"#,
        same: true,
        others: (SWAPPED_LIST, LEAF),
    },
    Folding {
        grammar: CALCULATOR,
        start: "Expr",
        text: "1+2*3",
        count: 17,
        shown: r#"Expr#2(Expr#0(Num#0("[0-9]+")), "+", Expr#1(Expr#0(Num#0("[0-9]+")), "*", Expr#0(Num#0("[0-9]+"))))"#,
        same: false,
        others: (PRODUCT_OF_SUM, SUM_OF_SUM),
    },
    Folding {
        grammar: COMMAS,
        start: "L",
        text: "a, b",
        count: 9,
        shown: r#"L#0(Comma<Id>#0([(Id#0("[a-z]+"), ",")], ?(Id#0("[a-z]+"))))"#,
        same: false,
        others: (SWAPPED_LIST, LEAF),
    },
];

/// Whether the tree is printed so.
fn is_shown(rt: &impl Abort, alloc: Global, tree: &WrittenTree, shown: &str) -> bool {
    let text = print_tree(alloc, tree).expect(rt, "memory");
    text.as_str() == shown
}

/// Whether the folded tree is unfolded to what it has to be.
fn unfolds(
    rt: &impl Abort,
    alloc: Global,
    prepared: &Prepared,
    folded: &ExpandedTree<'_>,
    tree: &WrittenTree,
    row: &Folding,
) -> bool {
    let unfolded = unfold(alloc, prepared, folded).expect(rt, "memory");
    let same = unfolded == *tree;
    (same | !row.same) & is_shown(rt, alloc, &unfolded, row.shown)
}

/// That the text's tree is admitted, is folded, and is unfolded to what it has to be.
fn folds(rt: &impl Abort, alloc: Global, prepared: &Prepared, row: &Folding) {
    let parser = parser_of(rt, alloc, prepared);
    let tree = parser.parse(alloc, row.text, u64::MAX).expect(rt, "a tree");
    let folded = folded_of(rt, alloc, prepared, &tree);
    check_row(rt, row.text, folded.node_count() == row.count);
    check_row(
        rt,
        row.text,
        unfolds(rt, alloc, prepared, &folded, &tree, row),
    );
}

/// Whether the tree that the JSON spells isn't folded since it isn't admitted.
fn is_refused(rt: &impl Abort, alloc: Global, prepared: &Prepared, json: &str) -> bool {
    let tree = tree_of_json(rt, alloc, json);
    fold(alloc, prepared, &tree).err() == Some(FoldError::NotAdmitted)
}

/// That the row's tree is folded, and its other trees aren't.
fn holds(rt: &impl Abort, alloc: Global, row: &Folding) {
    let prepared = prepared_grammar(rt, alloc, row.grammar, row.start);
    folds(rt, alloc, &prepared, row);
    check(rt, is_refused(rt, alloc, &prepared, row.others.0));
    check(rt, is_refused(rt, alloc, &prepared, row.others.1));
}

#[test]
fn admitted_trees_are_folded_and_unfolded_and_others_are_not(rt: HostRuntime) {
    for row in FOLDINGS.iter() {
        holds(&rt, rt.alloc(), row);
    }
}

#[test]
fn the_law_of_foldings_is_called() {
    foldings_are_inverse();
}
