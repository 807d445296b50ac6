//! Table tests of the normalizer: each case of a file is a grammar, what is asked of it, and the answer, as data.

mod case;
mod normalized;
mod passes;

use crate::files::{TableCase, Tally, compare, run_cases};
use crate::normalizing::case::Case;
use crate::normalizing::normalized::{fault, nonterminals, productions};
use crate::normalizing::passes::{first_fault, leveled_rules, token_fault};
use anyhow::{Result, bail};
use serde_json::Value;
use std::alloc::Global;
use std::rt::Files;

/// What is asked of grammars.
struct Normalizing;

impl TableCase for Normalizing {
    fn is_right<R: Alloc<A = Global> + Print>(rt: &R, case: &Value) -> Result<bool> {
        let case = Case::of(case)?;
        let answer = answer_of(rt.alloc(), &case)?;
        compare(rt, case.name, case.fields.value("wanted")?, &answer)
    }
}

/// How many cases of the file pass; each of the others is told.
pub fn run_tally<R: Alloc<A = Global> + Files + Print>(rt: &R, file: &str) -> Result<Tally> {
    run_cases::<Normalizing, R>(rt, file)
}

/// What the case's grammar answers.
///
/// - `first_fault`: the first fault that a pass tells, up to the levels, with its span, `null` where none does.
/// - `token_fault`: the same up to the token check, of a grammar without levels and macros.
/// - `leveled_rules`: the rules once each level has a rule of its own, each by its name, whether it is public, and the texts of
///   its symbols, alternative by alternative.
/// - `fault`: the fault of normalizing, with its span, `null` where there is none.
/// - `nonterminals`: the names of the normalized grammar's nonterminals, in order.
/// - `productions`: the productions of the normalized grammar, nonterminal by nonterminal in order: its name, the symbols, and
///   which written choice it stands for.
fn answer_of(alloc: Global, case: &Case<'_>) -> Result<Value> {
    match case.call {
        "first_fault" => first_fault(alloc, case),
        "token_fault" => token_fault(alloc, case),
        "leveled_rules" => leveled_rules(alloc, case),
        "fault" => fault(alloc, case),
        "nonterminals" => nonterminals(alloc, case),
        "productions" => productions(alloc, case),
        word => bail!("no such call: {word}"),
    }
}
