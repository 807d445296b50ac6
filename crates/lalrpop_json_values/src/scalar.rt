//! How numbers, spans, texts, names, words and flags are read from JSON values.

ghost use Rattle.std.specs.Prelude.{◌≡◌, ⊤};
ghost use Rattle.std.specs.List.{list_all};
ghost use Rattle.lalrpop_json_document.specs.DocumentViews.{view};
ghost use Rattle.lalrpop_json_values.specs.Gives.{Gives};
ghost use Rattle.lalrpop_json_values.specs.Objects.{field_at};
ghost use Rattle.lalrpop_json_values.specs.Scalars.{number_at, span_at, text_at, flag_at, null_at, optional, name_at, word_at, begins_name, continues_name, is_name};

use crate::fault::{FaultKind, ReadError};
use crate::key::Key;
use crate::object::{at_index, at_key, here, member};
use crate::word::Word;
use lalrpop_grammar_symbols::{Atom, Span};
use lalrpop_json_document::JsonValue;
use std::alloc::Global;

/// A whole number below 2^32.
#[tactic(auto, unfolding(crate::specs::Scalars::number_at))]
pub fn number_of(alloc: Global, value: &JsonValue<'_>) -> Result<u32, ReadError>
    ensures { Gives result (number_at (view value.now)) }
{
    if value.as_number().is_none() {
        return Err(here(alloc, FaultKind::WrongShape));
    }
    match value.as_u64() {
        Some(number) if number <= 0xffff_ffff => Ok(number as u32),
        _ => Err(here(alloc, FaultKind::BadNumber)),
    }
}

/// Two numbers in a list, the first not above the second.
#[tactic(auto, using(crate::proofs::PairLemmas::pairs), unfolding(crate::specs::Scalars::span_at))]
pub fn span_of(alloc: Global, value: &JsonValue<'_>) -> Result<Span, ReadError>
    ensures { Gives result (span_at (view value.now)) }
{
    let Some(ends) = value.as_array() else {
        return Err(here(alloc, FaultKind::WrongShape));
    };
    let [lo, hi] = ends.as_slice() else {
        return Err(here(alloc, FaultKind::WrongShape));
    };
    let lo = at_index(number_of(alloc, lo), 0)?;
    let hi = at_index(number_of(alloc, hi), 1)?;
    if hi < lo {
        return Err(here(alloc, FaultKind::BadNumber));
    }
    Ok(Span(lo as usize, hi as usize))
}

/// Any text.
#[tactic(auto, unfolding(crate::specs::Scalars::text_at))]
pub fn text_of(alloc: Global, value: &JsonValue<'_>) -> Result<Atom, ReadError>
    ensures { Gives result (text_at (view value.now)) }
{
    match value.as_str() {
        Some(text) => Ok(Atom::new(alloc, text)?),
        None => Err(here(alloc, FaultKind::WrongShape)),
    }
}

fn begins_name(byte: u8) -> bool
    ensures { result ≡ begins_name byte }
{
    byte.is_ascii_alphabetic() || byte == b'_'
}

fn continues_name(byte: u8) -> bool
    ensures { result ≡ continues_name byte }
{
    byte.is_ascii_alphanumeric() || byte == b'_'
}

fn all_continue(bytes: &[u8]) -> bool
    ensures { result ≡ list_all continues_name bytes.now }
{
    bytes.iter().all(|byte| continues_name(*byte))
}

/// Whether the text is an ASCII letter or `_`, and then ASCII letters, digits or `_`.
pub fn is_name(text: &str) -> bool
    ensures { result ≡ is_name text.now }
{
    match text.as_bytes() {
        [first, rest @ ..] => begins_name(*first) && all_continue(rest),
        [] => false,
    }
}

/// A name.
#[tactic(auto, unfolding(crate::specs::Scalars::name_at))]
pub fn name_of(alloc: Global, value: &JsonValue<'_>) -> Result<Atom, ReadError>
    ensures { Gives result (name_at (view value.now)) }
{
    let Some(text) = value.as_str() else {
        return Err(here(alloc, FaultKind::WrongShape));
    };
    if is_name(text) {
        Ok(Atom::new(alloc, text)?)
    } else {
        Err(here(alloc, FaultKind::BadName))
    }
}

/// This very word.
#[tactic(auto, unfolding(crate::specs::Scalars::word_at))]
pub fn word_of(alloc: Global, value: &JsonValue<'_>, word: Word) -> Result<(), ReadError>
    ensures { Gives result (word_at word (view value.now)) }
{
    match value.as_str() {
        Some(text) if text == word.text() => Ok(()),
        _ => Err(here(alloc, FaultKind::WrongShape)),
    }
}

/// `true` or `false`.
#[tactic(auto, unfolding(crate::specs::Scalars::flag_at))]
pub fn flag_of(alloc: Global, value: &JsonValue<'_>) -> Result<bool, ReadError>
    ensures { Gives result (flag_at (view value.now)) }
{
    match value.as_bool() {
        Some(flag) => Ok(flag),
        None => Err(here(alloc, FaultKind::WrongShape)),
    }
}

/// `null` alone.
#[tactic(auto, unfolding(crate::specs::Scalars::null_at))]
pub fn null_of(alloc: Global, value: &JsonValue<'_>) -> Result<(), ReadError>
    ensures { Gives result (null_at (view value.now)) }
{
    if value.is_null() {
        Ok(())
    } else {
        Err(here(alloc, FaultKind::WrongShape))
    }
}

/// `null`, or any text.
pub fn optional_text_of(alloc: Global, value: &JsonValue<'_>) -> Result<Option<Atom>, ReadError>
    ensures { Gives result (optional text_at (view value.now)) }
{
    if value.is_null() {
        return Ok(None);
    }
    let text = text_of(alloc, value)?;
    Ok(Some(text))
}

/// The span at a key.
#[tactic(auto, unfolding(crate::specs::Objects::field_at, crate::specs::Objects::member_at))]
pub fn span_field(alloc: Global, value: &JsonValue<'_>, key: Key) -> Result<Span, ReadError>
    ensures { Gives result (field_at key span_at (view value.now)) }
{
    let found = member(alloc, value, key)?;
    Ok(at_key(span_of(alloc, found), key)?)
}

/// The text at a key.
#[tactic(auto, unfolding(crate::specs::Objects::field_at, crate::specs::Objects::member_at))]
pub fn text_field(alloc: Global, value: &JsonValue<'_>, key: Key) -> Result<Atom, ReadError>
    ensures { Gives result (field_at key text_at (view value.now)) }
{
    let found = member(alloc, value, key)?;
    Ok(at_key(text_of(alloc, found), key)?)
}

/// The name at a key.
#[tactic(auto, unfolding(crate::specs::Objects::field_at, crate::specs::Objects::member_at))]
pub fn name_field(alloc: Global, value: &JsonValue<'_>, key: Key) -> Result<Atom, ReadError>
    ensures { Gives result (field_at key name_at (view value.now)) }
{
    let found = member(alloc, value, key)?;
    Ok(at_key(name_of(alloc, found), key)?)
}

/// The number at a key.
#[tactic(auto, unfolding(crate::specs::Objects::field_at, crate::specs::Objects::member_at))]
pub fn number_field(alloc: Global, value: &JsonValue<'_>, key: Key) -> Result<u32, ReadError>
    ensures { Gives result (field_at key number_at (view value.now)) }
{
    let found = member(alloc, value, key)?;
    Ok(at_key(number_of(alloc, found), key)?)
}

/// That this word stands at a key.
#[tactic(auto, unfolding(crate::specs::Objects::field_at, crate::specs::Objects::member_at))]
pub fn word_field(
    alloc: Global,
    value: &JsonValue<'_>,
    key: Key,
    word: Word,
) -> Result<(), ReadError>
    ensures { Gives result (field_at key (word_at word) (view value.now)) }
{
    let found = member(alloc, value, key)?;
    Ok(at_key(word_of(alloc, found, word), key)?)
}

/// The `true` or `false` at a key.
#[tactic(auto, unfolding(crate::specs::Objects::field_at, crate::specs::Objects::member_at))]
pub fn flag_field(alloc: Global, value: &JsonValue<'_>, key: Key) -> Result<bool, ReadError>
    ensures { Gives result (field_at key flag_at (view value.now)) }
{
    let found = member(alloc, value, key)?;
    Ok(at_key(flag_of(alloc, found), key)?)
}

/// That `null` stands at a key.
#[tactic(auto, unfolding(crate::specs::Objects::field_at, crate::specs::Objects::member_at))]
pub fn null_field(alloc: Global, value: &JsonValue<'_>, key: Key) -> Result<(), ReadError>
    ensures { Gives result (field_at key null_at (view value.now)) }
{
    let found = member(alloc, value, key)?;
    Ok(at_key(null_of(alloc, found), key)?)
}

/// The text at a key, or `null`.
#[tactic(auto, unfolding(crate::specs::Objects::field_at, crate::specs::Objects::member_at))]
pub fn optional_text_field(
    alloc: Global,
    value: &JsonValue<'_>,
    key: Key,
) -> Result<Option<Atom>, ReadError>
    ensures { Gives result (field_at key (optional text_at) (view value.now)) }
{
    let found = member(alloc, value, key)?;
    Ok(at_key(optional_text_of(alloc, found), key)?)
}
