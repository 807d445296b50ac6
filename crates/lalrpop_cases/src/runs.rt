//! Tables of runs.

use crate::case::Case;
use crate::outcome::{Outcome, outcome_of};
use anyhow::Result;
use lalrpop_case_kinds::files::{TableCase, Tally, run_cases};
use serde_json::Value;
use std::alloc::Global;
use std::rt::Files;

/// Runs of the program.
struct Runs;

impl TableCase for Runs {
    fn is_right<R: Alloc<A = Global> + Print>(rt: &R, case: &Value) -> Result<bool> {
        let case = Case::of(case)?;
        let outcome = outcome_of(rt.alloc(), &case)?;
        compare(rt, &case, &outcome)
    }
}

/// Whether the outcome is the one that is wanted; if not, it is told.
fn compare(rt: &impl Print, case: &Case<'_>, outcome: &Outcome) -> Result<bool> {
    let right = outcome.is_wanted(case)? && outcome.is_confirmed();
    if !right {
        tell(rt, case, outcome)?;
    }
    Ok(right)
}

/// How many cases of the file pass; each of the others is told.
pub(crate) fn run_tally<R: Alloc<A = Global> + Files + Print>(rt: &R, file: &str) -> Result<Tally> {
    run_cases::<Runs, R>(rt, file)
}

/// Tells which case differs, and what came; the case says what is wanted.
fn tell(rt: &impl Print, case: &Case<'_>, outcome: &Outcome) -> Result<()> {
    println!(rt;
        "{}: got {:?} {} {}",
        case.name, outcome.text, outcome.status, outcome.fault
    )?;
    if let Some(answer) = &outcome.called {
        println!(rt; "  called {:?} {}", answer.text, answer.status)?;
    }
    Ok(())
}
