//! What a case gives: plain productions, what is asked of them, and the answer.

use crate::call::Call;
use anyhow::{Result, bail};
use lalrpop_case_kinds::files::fields::{Fields, Form, Key};
use serde_json::Value;

/// What a case has.
const NEEDED: [Key; 4] = [
    ("name", Form::Text),
    ("grammar", Form::List),
    ("call", Form::Text),
    ("wanted", Form::Text),
];

/// What a case may have.
const OTHERS: [Key; 8] = [
    ("start", Form::Text),
    ("tokens", Form::Text),
    ("states", Form::List),
    ("others", Form::List),
    ("limit", Form::Number),
    ("copies", Form::Number),
    ("texts", Form::List),
    ("names", Form::Text),
];

/// What a state may have that a case writes.
const STATE: [Key; 5] = [
    ("number", Form::Number),
    ("items", Form::List),
    ("shifts", Form::List),
    ("gotos", Form::List),
    ("reductions", Form::List),
];

/// Plain productions, what is asked of them, and the answer.
#[derive(Clone, Copy)]
pub(crate) struct Case<'v> {
    /// What the case shows.
    pub(crate) name: &'v str,
    /// The productions, a line for each.
    pub(crate) grammar: &'v [Value],
    /// What is asked.
    pub(crate) question: Question<'v>,
    /// The answer.
    pub(crate) wanted: &'v str,
}

impl<'v> Case<'v> {
    /// The case that the value spells.
    ///
    /// # Errors
    ///
    /// The value has no such members, or states beside another call than that to check states.
    pub(crate) fn of(value: &'v Value) -> Result<Case<'v>> {
        let fields = Fields::of(value, &NEEDED, &OTHERS)?;
        let question = Question::of(&fields)?;
        if !matches!(question.call, Call::Check) && question.checked.is_given() {
            bail!("states are given beside another call than check");
        }
        Ok(Case {
            name: fields.text("name"),
            grammar: fields.list("grammar"),
            question,
            wanted: fields.text("wanted"),
        })
    }
}

/// What is asked of plain productions. What a case leaves out is empty.
#[derive(Clone, Copy)]
pub(crate) struct Question<'v> {
    /// What is asked.
    pub(crate) call: Call,
    /// The nonterminal to start from.
    pub(crate) start: &'v str,
    /// Tokens between blanks.
    pub(crate) tokens: &'v str,
    /// How many moves a parse may make.
    pub(crate) limit: u64,
    /// How many copies of states lanes may make.
    pub(crate) copies: u64,
    /// Texts of which both methods are asked, each of tokens between blanks.
    pub(crate) texts: &'v [Value],
    /// Nonterminals between blanks, whose first set is asked for.
    pub(crate) names: &'v str,
    /// Which states are to be checked.
    pub(crate) checked: Checked<'v>,
}

impl<'v> Question<'v> {
    /// The question that the members spell.
    fn of(fields: &Fields<'v>) -> Result<Question<'v>> {
        Ok(Question {
            call: Call::among(fields)?,
            start: fields.text("start"),
            tokens: fields.text("tokens"),
            limit: fields.number("limit", 0),
            copies: fields.number("copies", 0),
            texts: fields.list("texts"),
            names: fields.text("names"),
            checked: Checked::of(fields),
        })
    }
}

/// Which states are to be checked, the canonical ones where a case says nothing.
#[derive(Clone, Copy)]
pub(crate) struct Checked<'v> {
    /// States that are to be checked in place of the canonical ones.
    pub(crate) states: Option<&'v [Value]>,
    /// Productions that aren't the grammar's, a line for each, by which items and reductions of these states may be.
    pub(crate) others: &'v [Value],
}

impl<'v> Checked<'v> {
    /// The states that the members spell.
    fn of(fields: &Fields<'v>) -> Checked<'v> {
        Checked {
            states: fields.list_if("states"),
            others: fields.list("others"),
        }
    }

    /// Whether a case says something of them.
    fn is_given(&self) -> bool {
        self.states.is_some() | !self.others.is_empty()
    }
}

/// A state as a case writes it. A production is told by its nonterminal and its place among the productions of this.
#[derive(Clone, Copy)]
pub(crate) struct WrittenState<'v> {
    /// The number that it says to have, where that isn't its place.
    pub(crate) number: Option<u64>,
    /// Its items: the production of each, where its dot stands, and the tokens before which, where that isn't the end alone, as those of
    /// reductions.
    pub(crate) items: &'v [Value],
    /// Where terminals lead.
    pub(crate) shifts: &'v [Value],
    /// Where nonterminals lead.
    pub(crate) gotos: &'v [Value],
    /// Its reductions: the production of each, and the tokens before which, between blanks; `Eof` is the end, `Error` the token of
    /// errors.
    pub(crate) reductions: &'v [Value],
}

impl<'v> WrittenState<'v> {
    /// The state that the value spells.
    pub(crate) fn of(value: &'v Value) -> Result<WrittenState<'v>> {
        let fields = Fields::of(value, &[], &STATE)?;
        Ok(WrittenState {
            number: fields.number_if("number"),
            items: fields.list("items"),
            shifts: fields.list("shifts"),
            gotos: fields.list("gotos"),
            reductions: fields.list("reductions"),
        })
    }
}
