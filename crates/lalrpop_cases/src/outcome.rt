//! One run of the program over readers and a writer in memory.

ghost use Rattle.std.specs.Prelude.{◌≡◌, ◌↔◌, [], IfOk, IfSome, IsTrue, string_bytes};

use crate::case::{Case, all_words};
use crate::line::fit;
use anyhow::Result;
use lalrpop_grammar_streams::Watched;
use lalrpop_run::{Answer, Options, OptionsError, ReadError, answer, options, read_grammar, run};
use serde_json::Value;
use std::alloc::{AllocError, Global};
use std::str;

/// The status where the words are wrong or call for help.
const WRONG_WORDS: u8 = 4;

/// What came of a case.
#[derive(Drop)]
pub(crate) struct Outcome {
    /// What the run wrote.
    pub(crate) text: String,
    /// The status that it ended with.
    pub(crate) status: u8,
    /// The kind of `clap`'s fault, where it refuses the words.
    pub(crate) fault: String,
    /// What the call over the values answers, where there are a grammar and a text.
    pub(crate) called: Option<Answer>,
}

impl Outcome {
    /// Whether the case wants this text.
    fn has_wanted_text(&self, case: &Case<'_>) -> Result<bool>
        ensures { IfOk result (λ right. case.now.wanted.lines.now ≡ []
            → (IsTrue right ↔ (string_bytes self.now.text ≡ case.now.wanted.output.now))) }
    {
        if case.wanted.lines.is_empty() {
            Ok(self.text.as_str() == case.wanted.output)
        } else {
            fit(case.wanted.lines, self.text.as_str())
        }
    }

    /// Whether the case wants this outcome of its run.
    pub(crate) fn is_wanted(&self, case: &Case<'_>) -> Result<bool>
        ensures { IfOk result (λ right. case.now.wanted.lines.now ≡ []
            → (IsTrue right ↔ ((string_bytes self.now.text ≡ case.now.wanted.output.now)
            × (self.now.status ≡ case.now.wanted.status)
            × (string_bytes self.now.fault ≡ case.now.wanted.fault.now)))) }
    {
        let right = self.has_wanted_text(case)?;
        Ok(right && self.status == case.wanted.status && self.fault.as_str() == case.wanted.fault)
    }

    /// Whether the call over the values answers what the run does, where it was made.
    pub(crate) fn is_confirmed(&self) -> bool
        ensures { IsTrue result ↔ IfSome self.now.called (λ answer.
            (string_bytes answer.text ≡ string_bytes self.now.text) × (answer.status ≡ self.now.status)) }
    {
        match &self.called {
            Some(answer) => {
                answer.text.as_str() == self.text.as_str() && answer.status == self.status
            }
            None => true,
        }
    }
}

/// The outcome of the case.
pub(crate) fn outcome_of(alloc: Global, case: &Case<'_>) -> Result<Outcome> {
    let tree = case.tree_text(alloc)?;
    outcome_with(alloc, case, tree.as_deref())
}

/// The outcome of the case with this tree.
fn outcome_with(alloc: Global, case: &Case<'_>, tree: Option<&str>) -> Result<Outcome> {
    let words = all_words(alloc, &*case.words, tree)?;
    outcome_of_words(alloc, words.as_slice(), case)
}

/// The outcome of all words over the case's grammar and text.
fn outcome_of_words(alloc: Global, words: &[&str], case: &Case<'_>) -> Result<Outcome> {
    match options(alloc, words) {
        Ok(options) => outcome_under(alloc, &options, case),
        Err(OptionsError::Words(error)) => Ok(outcome_of_fault(alloc, &error)?),
        Err(OptionsError::Memory) => Err(AllocError.into()),
    }
}

/// The outcome where the words are wrong or call for help.
fn outcome_of_fault(alloc: Global, error: &clap::Error) -> Result<Outcome, AllocError> {
    let fault = format!(in alloc; "{:?}", error.kind())?;
    Ok(Outcome {
        text: String::new(alloc),
        status: WRONG_WORDS,
        fault,
        called: None,
    })
}

/// The outcome of the options over the case's grammar and text.
fn outcome_under(alloc: Global, options: &Options, case: &Case<'_>) -> Result<Outcome> {
    let grammar = case.grammar_bytes(alloc)?;
    let text = case.text_bytes(alloc, options.text.as_str())?;
    let called = answer_of_call(alloc, options, grammar.as_slice(), text.as_slice())?;
    let mut written = Vec::new(alloc);
    let status = written_by(
        alloc,
        options,
        grammar.as_slice(),
        text.as_slice(),
        &mut written,
    );
    let text = String::from_utf8(written)?;
    Ok(Outcome {
        text,
        status,
        fault: String::new(alloc),
        called,
    })
}

/// The status of the run, whose bytes are added to those written.
fn written_by(
    alloc: Global,
    options: &Options,
    grammar: &[u8],
    text: &[u8],
    written: &mut Vec<u8>,
) -> u8 {
    let mut grammar = Watched::new(grammar);
    let mut text = Watched::new(text);
    let mut out = Watched::new(written);
    run(alloc, options, &mut grammar, &mut text, &mut out)
}

/// What the call over the values answers, where the bytes give a grammar and a text.
fn answer_of_call(
    alloc: Global,
    options: &Options,
    grammar: &[u8],
    text: &[u8],
) -> Result<Option<Answer>> {
    let (Ok(json), Ok(text)) = (str::from_utf8(grammar), str::from_utf8(text)) else {
        return Ok(None);
    };
    match json_of(alloc, json)? {
        Some(value) => Ok(answer_of_value(alloc, options, &value, text)?),
        None => Ok(None),
    }
}

/// The value that the text is, where it is JSON.
fn json_of(alloc: Global, text: &str) -> Result<Option<Value>, AllocError> {
    match Value::from_str(alloc, text) {
        Ok(value) => Ok(Some(value)),
        Err(error) if error.is_memory() => Err(AllocError),
        Err(_) => Ok(None),
    }
}

/// What the call answers over the grammar, where the value spells one.
fn answer_of_value(
    alloc: Global,
    options: &Options,
    value: &Value,
    text: &str,
) -> Result<Option<Answer>, AllocError> {
    match read_grammar(alloc, value) {
        Ok(grammar) => Ok(Some(answer(alloc, options, grammar, text)?)),
        Err(ReadError::Shape { .. }) => Ok(None),
        Err(ReadError::Memory) => Err(AllocError),
    }
}
