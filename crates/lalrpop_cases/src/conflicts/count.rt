//! The conflicts of a case.

use crate::conflicts::case::Case;
use crate::conflicts::certified::see_all;
use crate::conflicts::difference::Difference;
use crate::conflicts::given::prepared_grammar;
use crate::conflicts::witnessed::witness_count;
use lalrpop_grammar_repr::methods::Method;
use lalrpop_run_parser::{Certificate, Prepared, generate};
use lalrpop_run_prepare::refusals::GenerateError;
use std::alloc::Global;

/// How many conflicts the case's grammar has, for each of which a certificate is accepted. They are as many as the canonical states have.
pub(crate) fn conflict_count(alloc: Global, case: &Case<'_>) -> Result<usize, Difference> {
    let prepared = prepared_grammar(alloc, case)?;
    shown_count(alloc, &prepared)
}

/// The same of a grammar that is prepared.
fn shown_count(alloc: Global, prepared: &Prepared) -> Result<usize, Difference> {
    let certificates = conflicts_of(alloc, prepared)?;
    certified_count(alloc, prepared, certificates.as_slice())
}

/// The certificates for which the grammar has no parser; none where it has one.
fn conflicts_of(alloc: Global, prepared: &Prepared) -> Result<Vec<Certificate<'_>>, Difference> {
    match generate(alloc, prepared, Method::Canonical) {
        Ok(_) => Ok(Vec::new(alloc)),
        Err(error) => certificates_in(error),
    }
}

/// The certificates for which a grammar is refused.
fn certificates_in(error: GenerateError<'_>) -> Result<Vec<Certificate<'_>>, Difference> {
    match error {
        GenerateError::Conflicts(certificates) => Ok(certificates),
        _ => Err(Difference::Refused),
    }
}

/// How many certificates there are, each of which is accepted, and as many as the canonical states have conflicts.
fn certified_count(
    alloc: Global,
    prepared: &Prepared,
    certificates: &[Certificate<'_>],
) -> Result<usize, Difference> {
    see_all(alloc, prepared, certificates)?;
    if certificates.len() == witness_count(alloc, prepared)? {
        Ok(certificates.len())
    } else {
        Err(Difference::NotEach)
    }
}
