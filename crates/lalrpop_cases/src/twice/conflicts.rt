//! Certificates of conflicts, each asked for twice.

ghost use Rattle.std.specs.Prelude.{◌≡◌, ◌<◌, length};
ghost use Rattle.lalrpop_run_parser.specs.Witnesses.{AreItsConflicts};

use crate::conflicts::certified::see_accepted;
use crate::conflicts::difference::Difference;
use crate::twice::tell;
use crate::twice::tracing::tell_traces;
use anyhow::Result;
use lalrpop_grammar_symbols::NonterminalString;
use lalrpop_lr1_build::build_lr1_states_canonical;
use lalrpop_lr1_core::{Lr1TableConstructionError, TableFault};
use lalrpop_run_parser::{Prepared, witness};
use std::alloc::Global;

/// Asks for the conflicts of the canonical states, for a certificate of each, twice, and for traces of its actions.
pub(crate) fn tell_conflicts<R: Alloc<A = Global> + Print>(
    rt: &R,
    prepared: &Prepared,
) -> Result<()> {
    match prepared.start_name().try_clone() {
        Ok(start) => tell_conflicts_from(rt, prepared, start),
        Err(_) => tell(rt, "out of memory"),
    }
}

/// The same from the start's name among the productions.
fn tell_conflicts_from<R: Alloc<A = Global> + Print>(
    rt: &R,
    prepared: &Prepared,
    start: NonterminalString,
) -> Result<()>
    requires { start ≡ prepared.now.start_name }
{
    prepared.known();
    match build_lr1_states_canonical(rt.alloc(), prepared.expansion(), start) {
        Ok(_) => tell(rt, "no conflicts"),
        Err(TableFault::Conflicts(error)) => tell_witnesses(rt, prepared, &error),
        Err(TableFault::Memory) => tell(rt, "out of memory"),
    }
}

/// Asks for a certificate of each conflict, twice, and for traces of its actions.
fn tell_witnesses<'p, R: Alloc<A = Global> + Print>(
    rt: &R,
    prepared: &'p Prepared,
    error: &Lr1TableConstructionError<'p>,
) -> Result<()>
    requires { AreItsConflicts prepared.now error.now }
{
    for number in 0..error.conflicts.len() {
        tell_witness(rt, prepared, error, number)?;
        tell_witness(rt, prepared, error, number)?;
        tell_traces(rt, prepared, error, number)?;
    }
    Ok(())
}

/// Asks for a certificate of the conflict with the number, and tells whether it is accepted.
fn tell_witness<'p, R: Alloc<A = Global> + Print>(
    rt: &R,
    prepared: &'p Prepared,
    error: &Lr1TableConstructionError<'p>,
    number: usize,
) -> Result<()>
    requires conflicts { AreItsConflicts prepared.now error.now }
    requires number { number < length error.now.conflicts.items }
{
    match seen_witness(rt.alloc(), prepared, error, number) {
        Ok(()) => println!(rt; "certificate accepted")?,
        Err(difference) => println!(rt; "{difference}")?,
    }
    Ok(())
}

/// Sees that a certificate of the conflict with the number is accepted.
fn seen_witness<'p>(
    alloc: Global,
    prepared: &'p Prepared,
    error: &Lr1TableConstructionError<'p>,
    number: usize,
) -> Result<(), Difference>
    requires conflicts { AreItsConflicts prepared.now error.now }
    requires number { number < length error.now.conflicts.items }
{
    let certificate = witness(alloc, prepared, error, number)?;
    see_accepted(alloc, prepared, &certificate)
}
