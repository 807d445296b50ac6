//! The certificates of the conflicts of a prepared grammar.

ghost use Rattle.std.specs.Prelude.{◌<◌, IfOk, length};
ghost use Rattle.lalrpop_run_parser.specs.Witnesses.{AreItsConflicts, AreWitnessesOf, IsWitnessOf};

use lalrpop_judge::certificates::Certificate;
use lalrpop_lr1_core::Lr1TableConstructionError;
use lalrpop_lr1_counterexamples::certificates::{certificates, told_conflicts_stand};
use lalrpop_run_prepare::Prepared;
use std::alloc::{AllocError, Global};

/// The certificates of all conflicts of the canonical states of the grammar's expansion, in their order. What all of them need is made once.
///
/// The first move of each is the conflict's reduction, the second its other action. What comes next is the least token of the conflict's
/// lookahead: terminals in the grammar's order, then the end. It is promised for a grammar as one is read.
///
/// # Errors
///
/// Memory is refused.
pub fn witnesses<'p>(
    alloc: Global,
    prepared: &'p Prepared,
    error: &Lr1TableConstructionError<'p>,
) -> Result<Vec<Certificate<'p>>, AllocError>
    requires { AreItsConflicts prepared.now error.now }
    ensures { IfOk result (λ all. AreWitnessesOf prepared.now error.now all.items) }
{
    // each conflict stands, and what is known of the grammar
    told_conflicts_stand();
    prepared.known();
    let start = prepared.start_name();
    let states = error.states.as_slice();
    let conflicts = error.conflicts.as_slice();
    let all = certificates(alloc, prepared.expansion(), start, states, conflicts)?;
    Ok(all)
}

/// The certificate of the conflict with the number, as `witnesses` has it.
///
/// # Errors
///
/// Memory is refused.
pub fn witness<'p>(
    alloc: Global,
    prepared: &'p Prepared,
    error: &Lr1TableConstructionError<'p>,
    number: usize,
) -> Result<Certificate<'p>, AllocError>
    requires conflicts { AreItsConflicts prepared.now error.now }
    requires number { number < length error.now.conflicts.items }
    ensures { IfOk result (IsWitnessOf prepared.now error.now number) }
{
    // each conflict stands, and what is known of the grammar
    told_conflicts_stand();
    prepared.known();
    let start = prepared.start_name();
    let states = error.states.as_slice();
    let (_, left) = error.conflicts.as_slice().split_at(number);
    let (one, _) = left.split_at(1);
    let mut all = certificates(alloc, prepared.expansion(), start, states, one)?;
    match all.pop() {
        Some(certificate) => Ok(certificate),
        None => unreachable!(),
    }
}
