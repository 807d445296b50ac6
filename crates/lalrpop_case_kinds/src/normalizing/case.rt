//! What a case gives: a grammar, what is asked of it, and the answer.

use crate::files::fields::{Fields, Form, Key};
use anyhow::Result;
use serde_json::Value;

/// How deep macros may stand in macros, where no case says it.
const MACRO_LIMIT: u64 = 200;

/// What a case has: what it shows in words, what is asked, the grammar, and the answer.
const NEEDED: [Key; 4] = [
    ("name", Form::Text),
    ("call", Form::Text),
    ("grammar", Form::Any),
    ("wanted", Form::Any),
];

/// What a case may have: the grammar in short, for who reads it, the features that are on, the prefix that no name may begin with, where it
/// isn't the one that reading finds, and how deep macros may stand in macros.
const OTHERS: [Key; 4] = [
    ("shows", Form::Text),
    ("features", Form::List),
    ("prefix", Form::Text),
    ("macro_limit", Form::Number),
];

/// A grammar, what is asked of it, and the answer.
#[derive(Clone, Copy)]
pub(crate) struct Case<'v> {
    /// What the case shows.
    pub(crate) name: &'v str,
    /// The word of what is asked.
    pub(crate) call: &'v str,
    /// What else the case says.
    pub(crate) fields: Fields<'v>,
}

impl<'v> Case<'v> {
    /// The case that the value spells.
    pub(crate) fn of(value: &'v Value) -> Result<Case<'v>> {
        let fields = Fields::of(value, &NEEDED, &OTHERS)?;
        Ok(Case {
            name: fields.text("name"),
            call: fields.text("call"),
            fields,
        })
    }

    /// How deep macros may stand in macros.
    pub(crate) fn macro_limit(&self) -> Result<u16> {
        Ok(u16::try_from(self.fields.number("macro_limit", MACRO_LIMIT))?)
    }
}
