//! Table tests of the tables: each case of a file is plain productions, what is asked of them, and the answer, as data.
#![tactic(auto)]

mod answer;
mod call;
mod case;
mod checks;
mod conflicts;
mod firsts;
mod lanes;
mod leasts;
mod onto;
mod parses;
mod states;

use crate::answer::answer_of;
use crate::case::Case;
pub use answer::tree_text;
use anyhow::Result;
use lalrpop_case_kinds::files::{TableCase, Tally, run_cases, tell};
pub use parses::{stop_text, tokens_of};
use serde_json::Value;
use std::alloc::Global;
use std::rt::Files;

/// What is asked of plain productions.
struct Tables;

impl TableCase for Tables {
    fn is_right<R: Alloc<A = Global> + Print>(rt: &R, case: &Value) -> Result<bool> {
        let case = Case::of(case)?;
        let answer = answer_of(rt.alloc(), &case)?;
        let right = answer.as_str() == case.wanted;
        if !right {
            tell(rt, case.name, &case.wanted, &answer)?;
        }
        Ok(right)
    }
}

/// How many cases of the file pass; each of the others is told.
pub fn run_tally<R: Alloc<A = Global> + Files + Print>(rt: &R, file: &str) -> Result<Tally> {
    run_cases::<Tables, R>(rt, file)
}
