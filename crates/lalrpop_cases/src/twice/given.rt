//! The grammar in a file, prepared: where memory runs out, that is told from all else.

use crate::conflicts::difference::Difference;
use lalrpop_grammar::{Atom, Grammar};
use lalrpop_grammar_repr::Session;
use lalrpop_run::GenerateError;
use lalrpop_run::questions::{Input, grammar_input};
use lalrpop_run_parser::{Prepared, prepare};
use std::alloc::Global;
use std::fs;
use std::io::ErrorKind;
use std::rt::Files;

/// How deep macros may stand in macros.
const MACRO_LIMIT: u16 = 200;

/// The grammar in the file, prepared for the start. It is boxed: a box is dropped by one call.
pub(crate) fn prepared_of_file<R: Alloc<A = Global> + Files>(
    rt: &R,
    start: &str,
    file: &str,
) -> Result<Box<Prepared>, Difference> {
    match fs::read_to_string(rt, file) {
        Ok(json) => prepared_of_json(rt.alloc(), start, json.as_str()),
        Err(error) if error.kind() == ErrorKind::OutOfMemory => Err(Difference::Memory),
        Err(_) => Err(Difference::NoGrammar),
    }
}

/// The grammar that the JSON spells, prepared for the start.
fn prepared_of_json(alloc: Global, start: &str, json: &str) -> Result<Box<Prepared>, Difference> {
    match grammar_input(alloc, json.as_bytes())? {
        Input::Value(grammar) => prepared_of(alloc, grammar, start),
        _ => Err(Difference::NoGrammar),
    }
}

/// The grammar, prepared for the start.
fn prepared_of(alloc: Global, grammar: Grammar, start: &str) -> Result<Box<Prepared>, Difference> {
    let start = Atom::new(alloc, start)?;
    let session = Session {
        features: Vec::new(alloc),
        macro_recursion_limit: MACRO_LIMIT,
    };
    match prepare(alloc, grammar, &start, session) {
        Ok(prepared) => Ok(Box::new(alloc, prepared)?),
        Err(GenerateError::Memory) => Err(Difference::Memory),
        Err(_) => Err(Difference::Refused),
    }
}
