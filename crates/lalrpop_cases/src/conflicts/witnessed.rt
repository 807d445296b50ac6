//! Certificates that are made of one conflict alone.

ghost use Rattle.std.specs.Prelude.{◌<◌, length};
ghost use Rattle.lalrpop_run_parser.specs.Witnesses.{AreItsConflicts};

use crate::conflicts::certified::see_accepted;
use crate::conflicts::difference::Difference;
use lalrpop_lr1_build::build_lr1_states_canonical;
use lalrpop_lr1_core::{Lr1TableConstructionError, TableFault};
use lalrpop_run_parser::{Prepared, witness};
use std::alloc::Global;

/// How many conflicts the canonical states have, for each of which the certificate that is made of it alone is accepted.
pub(crate) fn witness_count(alloc: Global, prepared: &Prepared) -> Result<usize, Difference> {
    prepared.known();
    let start = prepared.start_name().try_clone()?;
    match build_lr1_states_canonical(alloc, prepared.expansion(), start) {
        Ok(_) => Ok(0),
        Err(TableFault::Conflicts(error)) => {
            see_witnesses(alloc, prepared, &error)?;
            Ok(error.conflicts.len())
        }
        Err(TableFault::Memory) => Err(Difference::Memory),
    }
}

/// Sees that the certificate of each conflict is accepted.
fn see_witnesses<'p>(
    alloc: Global,
    prepared: &'p Prepared,
    error: &Lr1TableConstructionError<'p>,
) -> Result<(), Difference>
    requires { AreItsConflicts prepared.now error.now }
{
    for number in 0..error.conflicts.len() {
        see_witness(alloc, prepared, error, number)?;
    }
    Ok(())
}

/// Sees that the certificate of the conflict with the number is accepted.
fn see_witness<'p>(
    alloc: Global,
    prepared: &'p Prepared,
    error: &Lr1TableConstructionError<'p>,
    number: usize,
) -> Result<(), Difference>
    requires conflicts { AreItsConflicts prepared.now error.now }
    requires number { number < length error.now.conflicts.items }
{
    let certificate = witness(alloc, prepared, error, number)?;
    see_accepted(alloc, prepared, &certificate)
}
