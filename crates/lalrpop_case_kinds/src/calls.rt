//! Table tests of single calls: each case of a file is a call of a library and its answer, as data.

mod answer;
mod automata;
mod grammars;
mod pattern;

use crate::calls::answer::answer_of;
use crate::files::fields::{Fields, Form, Key};
use crate::files::{TableCase, Tally, compare, run_cases};
use anyhow::Result;
use serde_json::Value;
use std::alloc::Global;
use std::rt::Files;

/// What a case has: what it shows in words, the call, and what it has to answer.
const NEEDED: [Key; 3] = [
    ("name", Form::Text),
    ("call", Form::Any),
    ("wanted", Form::Any),
];

/// What a case may have: a grammar in short, for who reads it.
const OTHERS: [Key; 1] = [("shows", Form::Text)];

/// Single calls.
struct Calls;

impl TableCase for Calls {
    fn is_right<R: Alloc<A = Global> + Print>(rt: &R, case: &Value) -> Result<bool> {
        let fields = fields_of(case)?;
        let wanted = fields.value("wanted")?;
        let answer = answer_of(rt.alloc(), fields.value("call")?)?;
        compare(rt, fields.text("name"), wanted, &answer)
    }
}

/// What the case says under its keys.
fn fields_of(case: &Value) -> Result<Fields<'_>> {
    Fields::of(case, &NEEDED, &OTHERS)
}

/// How many cases of the file pass; each of the others is told.
pub fn run_tally<R: Alloc<A = Global> + Files + Print>(rt: &R, file: &str) -> Result<Tally> {
    run_cases::<Calls, R>(rt, file)
}
