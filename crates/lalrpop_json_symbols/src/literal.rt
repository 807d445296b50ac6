//! How literals and the terminals of tokens are read from JSON values.

ghost use Rattle.std.specs.Prelude.{◌≡◌};
ghost use Rattle.lalrpop_json_document.specs.DocumentViews.{view};
ghost use Rattle.lalrpop_json_values.specs.Gives.{Gives};
ghost use Rattle.lalrpop_json_values.specs.Objects.{field_at};
ghost use Rattle.lalrpop_json_symbols.specs.Literals.{bare_at, literal_at, quoted_at, regex_at, terminal_at};

use lalrpop_grammar_symbols::{TerminalLiteral, TerminalString};
use lalrpop_json_document::JsonValue;
use lalrpop_json_values::{
    FaultKind, Form, Key, ReadError, at_key, form_by_key, here, keys, member, name_field,
    text_field,
};
use std::alloc::Global;

#[tactic(auto, unfolding(crate::specs::Literals::quoted_at))]
fn quoted_of(alloc: Global, value: &JsonValue<'_>) -> Result<TerminalLiteral, ReadError>
    ensures { Gives result (quoted_at (view value.now)) }
{
    keys(alloc, value, &[Key::Quoted])?;
    let text = text_field(alloc, value, Key::Quoted)?;
    Ok(TerminalLiteral::Quoted(text))
}

#[tactic(auto, unfolding(crate::specs::Literals::regex_at))]
fn regex_of(alloc: Global, value: &JsonValue<'_>) -> Result<TerminalLiteral, ReadError>
    ensures { Gives result (regex_at (view value.now)) }
{
    keys(alloc, value, &[Key::Regex])?;
    let text = text_field(alloc, value, Key::Regex)?;
    Ok(TerminalLiteral::Regex(text))
}

#[tactic(auto, unfolding(crate::specs::Literals::bare_at))]
fn bare_of(alloc: Global, value: &JsonValue<'_>) -> Result<TerminalString, ReadError>
    ensures { Gives result (bare_at (view value.now)) }
{
    keys(alloc, value, &[Key::Bare])?;
    let name = name_field(alloc, value, Key::Bare)?;
    Ok(TerminalString::Bare(name))
}

/// A quoted literal or a regular expression.
#[tactic(auto, unfolding(crate::specs::Literals::literal_at))]
pub fn literal_of(alloc: Global, value: &JsonValue<'_>) -> Result<TerminalLiteral, ReadError>
    ensures { Gives result (literal_at (view value.now)) }
{
    let rows = [(Key::Quoted, Form::Quoted), (Key::Regex, Form::Regex)];
    match form_by_key(&rows, value) {
        Some(Form::Quoted) => quoted_of(alloc, value),
        Some(Form::Regex) => regex_of(alloc, value),
        _ => Err(here(alloc, FaultKind::WrongShape)),
    }
}

/// A literal or a bare name.
#[tactic(auto, unfolding(crate::specs::Literals::terminal_at))]
pub fn terminal_of(alloc: Global, value: &JsonValue<'_>) -> Result<TerminalString, ReadError>
    ensures { Gives result (terminal_at (view value.now)) }
{
    let rows = [
        (Key::Bare, Form::Bare),
        (Key::Quoted, Form::Quoted),
        (Key::Regex, Form::Regex),
    ];
    match form_by_key(&rows, value) {
        Some(Form::Bare) => bare_of(alloc, value),
        Some(Form::Quoted) => {
            let literal = quoted_of(alloc, value)?;
            Ok(TerminalString::Literal(literal))
        }
        Some(Form::Regex) => {
            let literal = regex_of(alloc, value)?;
            Ok(TerminalString::Literal(literal))
        }
        _ => Err(here(alloc, FaultKind::WrongShape)),
    }
}

/// The literal at a key.
#[tactic(auto, unfolding(lalrpop_json_values::specs::Objects::field_at, lalrpop_json_values::specs::Objects::member_at))]
pub fn literal_field(
    alloc: Global,
    value: &JsonValue<'_>,
    key: Key,
) -> Result<TerminalLiteral, ReadError>
    ensures { Gives result (field_at key literal_at (view value.now)) }
{
    let found = member(alloc, value, key)?;
    Ok(at_key(literal_of(alloc, found), key)?)
}

/// The literal or bare name at a key.
#[tactic(auto, unfolding(lalrpop_json_values::specs::Objects::field_at, lalrpop_json_values::specs::Objects::member_at))]
pub fn terminal_field(
    alloc: Global,
    value: &JsonValue<'_>,
    key: Key,
) -> Result<TerminalString, ReadError>
    ensures { Gives result (field_at key terminal_at (view value.now)) }
{
    let found = member(alloc, value, key)?;
    Ok(at_key(terminal_of(alloc, found), key)?)
}
