//! The certificates for which a grammar has no parser, and what is asked of them.

use crate::check::boxed;
use lalrpop_grammar::{Atom, NonterminalString, TerminalString};
use lalrpop_grammar_repr::methods::Method;
use lalrpop_run_parser::{Certificate, Prepared, check_conflict, generate};
use lalrpop_run_prepare::refusals::GenerateError;
use std::alloc::Global;
use std::process::Abort;

/// The certificates for which a grammar is refused.
fn certificates_in<'p>(rt: &impl Abort, error: GenerateError<'p>) -> Vec<Certificate<'p>> {
    match error {
        GenerateError::Conflicts(certificates) => certificates,
        _ => panic!(rt; "another refusal"),
    }
}

/// The certificates for which the grammar has no parser.
pub(crate) fn certificates_of<'p>(
    rt: &impl Abort,
    alloc: Global,
    prepared: &'p Prepared,
) -> Box<Vec<Certificate<'p>>> {
    let error = generate(alloc, prepared, Method::Canonical)
        .err()
        .expect(rt, "conflicts");
    boxed(rt, alloc, certificates_in(rt, error))
}

/// Whether the certificate is taken over the grammar's productions, from this nonterminal.
pub(crate) fn is_taken(
    rt: &impl Abort,
    alloc: Global,
    prepared: &Prepared,
    name: &NonterminalString,
    certificate: &Certificate<'_>,
) -> bool {
    check_conflict(alloc, prepared.expansion(), name, certificate).expect(rt, "memory")
}

/// The quoted terminal.
pub(crate) fn terminal_of(rt: &impl Abort, alloc: Global, text: &str) -> TerminalString {
    TerminalString::quoted(Atom::new(alloc, text).expect(rt, "memory"))
}
