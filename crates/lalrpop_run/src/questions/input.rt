//! What bytes are read as: a grammar, a tree, or why neither.

ghost use Rattle.std.specs.Prelude.{IfOk};
ghost use Rattle.lalrpop_json_grammar.specs.Grammars.{grammar_at};
ghost use Rattle.lalrpop_json_grammar.specs.ReadTrees.{tree_at};
ghost use Rattle.lalrpop_run.specs.Inputs.{IsInput, IsInputFor};
ghost use Rattle.lalrpop_json_document.specs.DocumentViews.{view};

use crate::questions::json_value::value_of_text;
use json::Scratch;
use lalrpop_grammar::{Grammar, WrittenTree};
use lalrpop_json_document::JsonValue;
use lalrpop_json_grammar::{Fault, ReadError, grammar_of_document, tree_of_document};
use std::alloc::{AllocError, Global};
use std::str;

/// What bytes are read as.
#[derive(Drop)]
pub enum Input<T> {
    /// What their value gives.
    Value(T),
    /// They are no JSON.
    NotJson,
    /// The first fault of the value.
    Fault(Fault),
}

/// The tree that a text gives.
///
/// # Errors
///
/// Memory is refused.
pub fn tree_input(alloc: Global, text: &str) -> Result<Input<WrittenTree>, AllocError>
    ensures { IfOk result (IsInput tree_at text.now) }
{
    let mut scratch = Scratch::new(alloc);
    match value_of_text(alloc, text, &mut scratch)? {
        Some(value) => {
            let input = tree_of_value(alloc, &value)?;
            Ok(input)
        }
        None => Ok(Input::NotJson),
    }
}

/// The tree that a value gives.
fn tree_of_value(alloc: Global, value: &JsonValue<'_>) -> Result<Input<WrittenTree>, AllocError>
    ensures { IfOk result (IsInputFor (tree_at (view value.now))) }
{
    match tree_of_document(alloc, value) {
        Ok(tree) => Ok(Input::Value(tree)),
        Err(ReadError::Shape { path, kind }) => Ok(Input::Fault(Fault { path, kind })),
        Err(ReadError::Memory) => Err(AllocError),
    }
}

/// The grammar that bytes give.
///
/// # Errors
///
/// Memory is refused.
pub fn grammar_input(alloc: Global, bytes: &[u8]) -> Result<Input<Grammar>, AllocError>
    ensures { IfOk result (IsInput grammar_at bytes.now) }
{
    match str::from_utf8(bytes) {
        Ok(text) => grammar_of_text(alloc, text),
        Err(_) => Ok(Input::NotJson),
    }
}

/// The grammar that a text gives.
fn grammar_of_text(alloc: Global, text: &str) -> Result<Input<Grammar>, AllocError>
    ensures { IfOk result (IsInput grammar_at text.now) }
{
    let mut scratch = Scratch::new(alloc);
    match value_of_text(alloc, text, &mut scratch)? {
        Some(value) => {
            let input = grammar_of_value(alloc, &value)?;
            Ok(input)
        }
        None => Ok(Input::NotJson),
    }
}

/// The grammar that a value gives.
fn grammar_of_value(alloc: Global, value: &JsonValue<'_>) -> Result<Input<Grammar>, AllocError>
    ensures { IfOk result (IsInputFor (grammar_at (view value.now))) }
{
    match grammar_of_document(alloc, value) {
        Ok(grammar) => Ok(Input::Value(grammar)),
        Err(ReadError::Shape { path, kind }) => Ok(Input::Fault(Fault { path, kind })),
        Err(ReadError::Memory) => Err(AllocError),
    }
}
