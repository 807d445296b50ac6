//! What a case gives: its grammar, prepared.

use crate::conflicts::case::Case;
use crate::conflicts::difference::Difference;
use lalrpop_grammar::{Atom, Grammar};
use lalrpop_grammar_repr::Session;
use lalrpop_json_grammar::read_grammar;
use lalrpop_run_parser::{Prepared, prepare};
use std::alloc::Global;

/// How deep macros may stand in macros.
const MACRO_LIMIT: u16 = 200;

/// The case's grammar, prepared for its start. It is boxed: a box is dropped by one call.
pub(crate) fn prepared_grammar(
    alloc: Global,
    case: &Case<'_>,
) -> Result<Box<Prepared>, Difference> {
    let start = Atom::new(alloc, case.start)?;
    match read_grammar(alloc, case.grammar) {
        Ok(grammar) => prepare_read(alloc, grammar, &start),
        Err(_) => Err(Difference::NoGrammar),
    }
}

/// The grammar that was read, prepared for the start.
fn prepare_read(
    alloc: Global,
    grammar: Grammar,
    start: &Atom,
) -> Result<Box<Prepared>, Difference> {
    let session = Session {
        features: Vec::new(alloc),
        macro_recursion_limit: MACRO_LIMIT,
    };
    match prepare(alloc, grammar, start, session) {
        Ok(prepared) => Ok(Box::new(alloc, prepared)?),
        Err(_) => Err(Difference::Refused),
    }
}
