//! What a case gives: a grammar, and how many conflicts it has.

use anyhow::Result;
use lalrpop_case_kinds::files::fields::{Fields, Form, Key};
use serde_json::Value;

/// What a case has.
const KEYS: [Key; 5] = [
    ("name", Form::Text),
    ("shows", Form::Text),
    ("start", Form::Text),
    ("grammar", Form::Any),
    ("wanted", Form::Number),
];

/// A grammar, a start, and how many conflicts the canonical states have.
#[derive(Clone, Copy)]
pub(crate) struct Case<'v> {
    /// What the case shows.
    pub(crate) name: &'v str,
    /// The grammar in short, for who reads the case.
    pub(crate) shows: &'v str,
    /// The rule to start from.
    pub(crate) start: &'v str,
    /// The grammar.
    pub(crate) grammar: &'v Value,
    /// How many conflicts there are.
    pub(crate) wanted: u64,
}

impl<'v> Case<'v> {
    /// The case that the value spells.
    pub(crate) fn of(value: &'v Value) -> Result<Case<'v>> {
        let fields = Fields::of(value, &KEYS, &[])?;
        Ok(Case {
            name: fields.text("name"),
            shows: fields.text("shows"),
            start: fields.text("start"),
            grammar: fields.value("grammar")?,
            wanted: fields.number("wanted", 0),
        })
    }
}
