//! Copies of productions, with something of their own.

use crate::check::boxed;
use crate::given::name_of;
use lalrpop_grammar::Span;
use lalrpop_grammar_repr::{ActionFn, Production};
use std::alloc::Global;
use std::process::Abort;

/// The number of an action that is none of a small grammar's.
pub(crate) const NO_ACTION: usize = 4_294_967_295;

/// What a copy of a production has of its own.
#[derive(Clone, Copy)]
pub(crate) enum Own {
    /// Nothing: it equals the production.
    Nothing,
    /// An action that is none of the grammar's.
    Action,
    /// A place.
    Place,
    /// A nonterminal.
    Name,
}

/// A copy of the production.
pub(crate) fn copy_with(
    rt: &impl Abort,
    alloc: Global,
    production: &Production,
    own: Own,
) -> Box<Production> {
    let mut copy = production.try_clone(alloc).expect(rt, "memory");
    match own {
        Own::Nothing => {}
        Own::Action => copy.action = ActionFn::new(NO_ACTION),
        Own::Place => copy.span = Span(0, 1),
        Own::Name => copy.nonterminal = name_of(rt, alloc, "F"),
    }
    boxed(rt, alloc, copy)
}
