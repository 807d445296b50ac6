//! The certificate of a sum of sums, with other trees in common.

use crate::check::check_row;
use crate::given::{prepared_grammar, production_at};
use crate::witnesses::copies::{Own, copy_with};
use crate::witnesses::given::{certificates_of, is_taken};
use crate::witnesses::grammars::SUMS;
use crate::witnesses::trees::{Shape, tree_of};
use lalrpop_grammar_repr::Production;
use lalrpop_lr1::ExpandedTree;
use lalrpop_run_parser::Prepared;
use std::alloc::Global;
use std::process::Abort;

/// The trees of `n + n` in front of a reduction, one production over each `n`.
fn operands_over<'p>(
    rt: &impl Abort,
    alloc: Global,
    prepared: &'p Prepared,
    first: &'p Production,
    second: &'p Production,
) -> Vec<ExpandedTree<'p>> {
    let mut trees = Vec::new(alloc);
    let left = tree_of(rt, alloc, prepared, first, Shape::Below("n"));
    trees.push(left).expect(rt, "memory");
    let sign = tree_of(rt, alloc, prepared, first, Shape::Leaf(" +"));
    trees.push(sign).expect(rt, "memory");
    let right = tree_of(rt, alloc, prepared, second, Shape::Below("  n"));
    trees.push(right).expect(rt, "memory");
    trees
}

/// Copies of the production of the alternative `"n"` over both operands.
#[derive(Clone, Copy)]
struct Operands {
    /// What is shown.
    shows: &'static str,
    /// What the first one's has of its own.
    first: Own,
    /// What the second one's has.
    second: Own,
    /// Whether the certificate is taken with them.
    taken: bool,
}

static OPERANDS: [Operands; 5] = [
    Operands {
        shows: "two equal copies",
        first: Own::Nothing,
        second: Own::Nothing,
        taken: true,
    },
    Operands {
        shows: "the first stands elsewhere",
        first: Own::Place,
        second: Own::Nothing,
        taken: false,
    },
    Operands {
        shows: "the second stands elsewhere",
        first: Own::Nothing,
        second: Own::Place,
        taken: false,
    },
    Operands {
        shows: "the first is another nonterminal's",
        first: Own::Name,
        second: Own::Nothing,
        taken: false,
    },
    Operands {
        shows: "the second is another nonterminal's",
        first: Own::Nothing,
        second: Own::Name,
        taken: false,
    },
];

/// Whether the told certificate is taken with these productions over the operands that both sentences have in common.
fn is_taken_over<'p>(
    rt: &impl Abort,
    alloc: Global,
    prepared: &'p Prepared,
    first: &'p Production,
    second: &'p Production,
) -> bool {
    let mut certificates = certificates_of(rt, alloc, prepared);
    let mut certificate = certificates.pop().expect(rt, "a certificate");
    certificate.shared = operands_over(rt, alloc, prepared, first, second);
    is_taken(rt, alloc, prepared, prepared.start_name(), &certificate)
}

/// That a certificate is taken with equal productions over the operands, and with no others.
fn wants_its_operands(rt: &impl Abort, alloc: Global) {
    let prepared = prepared_grammar(rt, alloc, SUMS, "E");
    for row in OPERANDS.iter() {
        let operand = production_at(rt, alloc, prepared.expansion(), "E", 0);
        let first = copy_with(rt, alloc, operand, row.first);
        let second = copy_with(rt, alloc, operand, row.second);
        let taken = is_taken_over(rt, alloc, &prepared, &first, &second);
        check_row(rt, row.shows, taken == row.taken);
    }
}

#[test]
fn a_shared_tree_over_another_production_with_the_same_action_is_not_taken(rt: HostRuntime) {
    wants_its_operands(&rt, rt.alloc());
}
