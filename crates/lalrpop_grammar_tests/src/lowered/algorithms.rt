//! Algorithms that attributes ask for.

use crate::check::check;
use lalrpop_grammar::{Attribute, AttributeArg};
use lalrpop_grammar_repr::{Algorithm, read_algorithm};
use lalrpop_grammar_symbols::{Atom, Span};
use std::alloc::Global;
use std::process::Abort;

/// The attribute of this name, with nothing behind it.
fn attribute(rt: &impl Abort, alloc: Global, name: &str) -> Attribute {
    Attribute {
        span: Span(0, 1),
        id: Atom::new(alloc, name).expect(rt, "memory"),
        arg: AttributeArg::Empty,
    }
}

/// Whether an attribute of this name makes the algorithm's states one where their LR(0) items are the same.
fn asks_for_lalr(rt: &impl Abort, alloc: Global, name: &str) -> bool {
    let attributes = [attribute(rt, alloc, name)];
    let mut algorithm = Algorithm { lalr: false };
    read_algorithm(&attributes, &mut algorithm);
    algorithm.lalr
}

#[test]
fn algorithms_of_attributes(rt: HostRuntime) {
    check(&rt, asks_for_lalr(&rt, rt.alloc(), "LALR"));
    check(&rt, !asks_for_lalr(&rt, rt.alloc(), "lalr"));
}
