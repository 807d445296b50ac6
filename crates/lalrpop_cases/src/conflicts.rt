//! Table tests of conflicts: each case of a file is a grammar and how many conflicts it has, each of which has to be shown by
//! certificates that hold.

mod case;
pub(crate) mod certified;
mod count;
pub(crate) mod difference;
mod given;
mod witnessed;

use crate::conflicts::case::Case;
use crate::conflicts::count::conflict_count;
use crate::conflicts::difference::Difference;
use anyhow::Result;
use lalrpop_case_kinds::files::{TableCase, Tally, run_cases};
use serde_json::Value;
use std::alloc::Global;
use std::rt::Files;

/// Conflicts of grammars.
struct Conflicts;

impl TableCase for Conflicts {
    fn is_right<R: Alloc<A = Global> + Print>(rt: &R, case: &Value) -> Result<bool> {
        let case = Case::of(case)?;
        match conflict_count(rt.alloc(), &case) {
            Ok(count) => has_count(rt, &case, count),
            Err(difference) => tell_difference(rt, &case, difference),
        }
    }
}

/// Whether there are as many conflicts as are wanted; if not, both numbers are told.
fn has_count(rt: &impl Print, case: &Case<'_>, count: usize) -> Result<bool> {
    let right = count as u64 == case.wanted;
    if !right {
        tell_count(rt, case, count)?;
    }
    Ok(right)
}

/// Tells how many conflicts were wanted of the case and how many came.
fn tell_count(rt: &impl Print, case: &Case<'_>, count: usize) -> Result<()> {
    println!(rt;
        "{} {}: wanted {}, got {count}",
        case.name, case.shows, case.wanted
    )?;
    Ok(())
}

/// Tells what differs in the case, which is not right then.
fn tell_difference(rt: &impl Print, case: &Case<'_>, difference: Difference) -> Result<bool> {
    println!(rt; "{} {}: {difference}", case.name, case.shows)?;
    Ok(false)
}

/// How many cases of the file pass; each of the others is told.
pub(crate) fn run_tally<R: Alloc<A = Global> + Files + Print>(rt: &R, file: &str) -> Result<Tally> {
    run_cases::<Conflicts, R>(rt, file)
}
