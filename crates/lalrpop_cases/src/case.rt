//! A case of the table.

use anyhow::{Result, bail};
use lalrpop_case_kinds::files::fields::{Fields, Form, Key, text_of};
use serde_json::Value;
use std::alloc::{AllocError, Global};

/// What a case has.
const NEEDED: [Key; 2] = [("name", Form::Text), ("status", Form::Number)];

/// What a case may have; what it shows is for a person, a grammar and a tree in LALRPOP's own notation.
const OTHERS: [Key; 10] = [
    ("shows", Form::Text),
    ("words", Form::List),
    ("grammar", Form::Any),
    ("grammar_hex", Form::Text),
    ("tree", Form::Any),
    ("text", Form::Text),
    ("text_hex", Form::Text),
    ("fault", Form::Text),
    ("output", Form::Text),
    ("lines", Form::List),
];

/// A case of the table: words, what is given beside them, and what the program has to answer.
#[derive(Clone, Copy)]
pub(crate) struct Case<'v> {
    /// What the case is called.
    pub(crate) name: &'v str,
    /// The words behind the program's name.
    pub(crate) words: &'v [Value],
    /// What is given to it.
    given: Given<'v>,
    /// What has to come of it.
    pub(crate) wanted: Wanted<'v>,
}

/// What a case gives to the program beside the words.
#[derive(Clone, Copy)]
struct Given<'v> {
    /// The grammar's JSON, or a text that stands for itself. Where it's left out nothing is read.
    grammar: Option<&'v Value>,
    /// The grammar's bytes in hex, where they are no text.
    grammar_hex: Option<&'v str>,
    /// The tree's JSON, or a text that stands for itself: the value of `--tree`, behind the words.
    tree: Option<&'v Value>,
    /// The text, where it isn't the one that the words give.
    text: Option<&'v str>,
    /// The text's bytes in hex, where they are no text.
    text_hex: Option<&'v str>,
}

/// What has to come of a case.
#[derive(Clone, Copy)]
pub(crate) struct Wanted<'v> {
    /// The kind of `clap`'s fault, where it refuses the words.
    pub(crate) fault: &'v str,
    /// What the program has to write.
    pub(crate) output: &'v str,
    /// What the lines have to be like that it writes, where these stand in place of the output: of conflicts not all is fixed.
    pub(crate) lines: &'v [Value],
    /// The status that it has to end with.
    pub(crate) status: u8,
}

impl<'v> Case<'v> {
    /// The case that the value spells.
    pub(crate) fn of(value: &'v Value) -> Result<Case<'v>> {
        let fields = Fields::of(value, &NEEDED, &OTHERS)?;
        Ok(Case {
            name: fields.text("name"),
            words: fields.list("words"),
            given: Given::of(&fields),
            wanted: Wanted::of(&fields),
        })
    }

    /// The tree as a word, where there is one.
    pub(crate) fn tree_text(&self, alloc: Global) -> Result<Option<String>, AllocError> {
        match self.given.tree {
            Some(tree) => Ok(Some(text_of_value(alloc, tree)?)),
            None => Ok(None),
        }
    }

    /// What the program reads as the grammar.
    pub(crate) fn grammar_bytes(&self, alloc: Global) -> Result<Vec<u8>> {
        match (self.given.grammar, self.given.grammar_hex) {
            (Some(_), Some(_)) => bail!("two grammars"),
            (Some(grammar), None) => Ok(text_of_value(alloc, grammar)?.into_bytes()),
            (None, Some(digits)) => Ok(hex::decode(alloc, digits)?),
            (None, None) => Ok(Vec::new(alloc)),
        }
    }

    /// What the program reads as the text, which is usually the one that the words give.
    pub(crate) fn text_bytes(&self, alloc: Global, usual: &str) -> Result<Vec<u8>> {
        match (self.given.text, self.given.text_hex) {
            (Some(_), Some(_)) => bail!("two texts"),
            (Some(text), None) => Ok(text.as_bytes().to_vec(alloc)?),
            (None, Some(digits)) => Ok(hex::decode(alloc, digits)?),
            (None, None) => Ok(usual.as_bytes().to_vec(alloc)?),
        }
    }
}

impl<'v> Given<'v> {
    /// What the members give.
    fn of(fields: &Fields<'v>) -> Given<'v> {
        Given {
            grammar: fields.get("grammar"),
            grammar_hex: fields.text_if("grammar_hex"),
            tree: fields.get("tree"),
            text: fields.text_if("text"),
            text_hex: fields.text_if("text_hex"),
        }
    }
}

impl<'v> Wanted<'v> {
    /// What the members want.
    fn of(fields: &Fields<'v>) -> Wanted<'v> {
        Wanted {
            fault: fields.text("fault"),
            output: fields.text("output"),
            lines: fields.list("lines"),
            status: u8::try_from(fields.number("status", 0)).unwrap_or(u8::MAX),
        }
    }
}

/// All words: the program's name, those of a case, and the tree's.
pub(crate) fn all_words<'a>(
    alloc: Global,
    own: &'a [Value],
    tree: Option<&'a str>,
) -> Result<Vec<&'a str>> {
    let mut words = Vec::new(alloc);
    words.push("lalrpop_run")?;
    for word in own {
        words.push(text_of(word)?)?;
    }
    add_tree(&mut words, tree)?;
    Ok(words)
}

/// Puts the tree's words behind the others, where there is one.
fn add_tree<'a>(words: &mut Vec<&'a str>, tree: Option<&'a str>) -> Result<(), AllocError> {
    if let Some(tree) = tree {
        words.push("--tree")?;
        words.push(tree)?;
    }
    Ok(())
}

/// A text as itself, and another value as compact JSON.
fn text_of_value(alloc: Global, value: &Value) -> Result<String, AllocError> {
    match value {
        Value::String(text) => text.clone(),
        other => other.to_string(alloc),
    }
}
