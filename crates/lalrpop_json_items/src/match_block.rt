//! How match blocks are read from JSON values.

ghost use Rattle.std.specs.Prelude.{◌≡◌};
ghost use Rattle.lalrpop_json_document.specs.DocumentViews.{view};
ghost use Rattle.lalrpop_json_values.specs.Gives.{Gives, within};
ghost use Rattle.lalrpop_json_values.specs.Lists.{list_at};
ghost use Rattle.lalrpop_json_values.specs.Objects.{field_at};
ghost use Rattle.lalrpop_json_values.specs.Scalars.{optional};
ghost use Rattle.lalrpop_json_items.specs.Matches.{catch_all_at, contents_at, match_entry_at, match_entry_of, listed_entry_at, mapping_at, match_at, word_mapping};
ghost use Rattle.lalrpop_json_values.specs.declared.fault.Step.TheVariants as step;

use lalrpop_grammar::{MatchContents, MatchItem, MatchMapping, MatchToken};
use lalrpop_grammar_symbols::{List, Span, TerminalLiteral};
use lalrpop_json_document::JsonValue;
use lalrpop_json_symbols::{literal_field, terminal_of};
use lalrpop_json_values::{
    FaultKind, Form, Key, ReadError, Word, at_index, at_key, form_by_key, here, keys, member,
    span_field, word_field,
};
use std::alloc::Global;

fn word_mapping(alloc: Global, text: &str) -> Result<MatchMapping, ReadError>
    ensures { Gives result (word_mapping text.now) }
{
    if text == Word::Skip.text() {
        Ok(MatchMapping::Skip)
    } else {
        Err(here(alloc, FaultKind::WrongShape))
    }
}

/// What an entry's matches become.
#[tactic(auto, unfolding(crate::specs::Matches::mapping_at))]
fn mapping_of(alloc: Global, value: &JsonValue<'_>) -> Result<MatchMapping, ReadError>
    ensures { Gives result (mapping_at (view value.now)) }
{
    let Some(text) = value.as_str() else {
        let terminal = terminal_of(alloc, value)?;
        return Ok(MatchMapping::Terminal(terminal));
    };
    word_mapping(alloc, text)
}

/// `null`, or what an entry's matches become.
fn optional_mapping_of(
    alloc: Global,
    value: &JsonValue<'_>,
) -> Result<Option<MatchMapping>, ReadError>
    ensures { Gives result (optional mapping_at (view value.now)) }
{
    if value.is_null() {
        return Ok(None);
    }
    let found = mapping_of(alloc, value)?;
    Ok(Some(found))
}

/// What an entry's matches become, at a key.
#[tactic(auto, unfolding(lalrpop_json_values::specs::Objects::field_at, lalrpop_json_values::specs::Objects::member_at))]
fn mapping_field(
    alloc: Global,
    value: &JsonValue<'_>,
    key: Key,
) -> Result<Option<MatchMapping>, ReadError>
    ensures { Gives result (field_at key (optional mapping_at) (view value.now)) }
{
    let found = member(alloc, value, key)?;
    Ok(at_key(optional_mapping_of(alloc, found), key)?)
}

fn entry_with(literal: TerminalLiteral, mapping: Option<MatchMapping>, span: Span) -> MatchItem
    ensures { result ≡ match_entry_of literal mapping span }
{
    match mapping {
        None => MatchItem::Unmapped(literal, span),
        Some(mapping) => MatchItem::Mapped(literal, mapping, span),
    }
}

#[tactic(auto, unfolding(crate::specs::Matches::listed_entry_at))]
fn listed_of(alloc: Global, value: &JsonValue<'_>) -> Result<MatchItem, ReadError>
    ensures { Gives result (listed_entry_at (view value.now)) }
{
    keys(alloc, value, &[Key::Literal, Key::Map, Key::Span])?;
    let literal = literal_field(alloc, value, Key::Literal)?;
    let mapping = mapping_field(alloc, value, Key::Map)?;
    let span = span_field(alloc, value, Key::Span)?;
    Ok(entry_with(literal, mapping, span))
}

#[tactic(auto, unfolding(crate::specs::Matches::catch_all_at))]
fn catch_all_of(alloc: Global, value: &JsonValue<'_>) -> Result<MatchItem, ReadError>
    ensures { Gives result (catch_all_at (view value.now)) }
{
    keys(alloc, value, &[Key::CatchAll])?;
    let span = span_field(alloc, value, Key::CatchAll)?;
    Ok(MatchItem::CatchAll(span))
}

/// An entry of a match block.
#[tactic(auto, unfolding(crate::specs::Matches::match_entry_at))]
fn entry_of(alloc: Global, value: &JsonValue<'_>) -> Result<MatchItem, ReadError>
    ensures { Gives result (match_entry_at (view value.now)) }
{
    let rows = [
        (Key::CatchAll, Form::CatchAll),
        (Key::Literal, Form::Entry),
        (Key::Map, Form::Entry),
        (Key::Span, Form::Entry),
    ];
    match form_by_key(&rows, value) {
        Some(Form::CatchAll) => catch_all_of(alloc, value),
        Some(Form::Entry) => listed_of(alloc, value),
        _ => Err(here(alloc, FaultKind::WrongShape)),
    }
}

fn entry_in(alloc: Global, value: &JsonValue<'_>, index: usize) -> Result<MatchItem, ReadError>
    ensures { Gives result (within (step.Index index) (match_entry_at (view value.now))) }
{
    Ok(at_index(entry_of(alloc, value), index)?)
}

/// A list of entries.
#[tactic(auto, using(lalrpop_json_values::proofs::ListReadingLemmas::lists), unfolding(lalrpop_json_values::specs::Lists::list_at))]
fn entries_of(alloc: Global, value: &JsonValue<'_>) -> Result<List<MatchItem>, ReadError>
    ensures { Gives result (list_at (λ _. match_entry_at) (view value.now)) }
{
    let Some(values) = value.as_array() else {
        return Err(here(alloc, FaultKind::WrongShape));
    };
    let mut found = List::new(alloc);
    for (index, value) in values.iter().enumerate() {
        let entry = entry_in(alloc, value, index)?;
        found.push(entry)?;
    }
    Ok(found)
}

/// A group of entries.
#[tactic(auto, unfolding(crate::specs::Matches::contents_at))]
fn contents_of(alloc: Global, value: &JsonValue<'_>) -> Result<MatchContents, ReadError>
    ensures { Gives result (contents_at (view value.now)) }
{
    let items = entries_of(alloc, value)?;
    Ok(MatchContents { items })
}

fn contents_in(
    alloc: Global,
    value: &JsonValue<'_>,
    index: usize,
) -> Result<MatchContents, ReadError>
    ensures { Gives result (within (step.Index index) (contents_at (view value.now))) }
{
    Ok(at_index(contents_of(alloc, value), index)?)
}

/// A list of groups.
#[tactic(auto, using(lalrpop_json_values::proofs::ListReadingLemmas::lists), unfolding(lalrpop_json_values::specs::Lists::list_at))]
fn groups_of(alloc: Global, value: &JsonValue<'_>) -> Result<List<MatchContents>, ReadError>
    ensures { Gives result (list_at (λ _. contents_at) (view value.now)) }
{
    let Some(values) = value.as_array() else {
        return Err(here(alloc, FaultKind::WrongShape));
    };
    let mut found = List::new(alloc);
    for (index, value) in values.iter().enumerate() {
        let contents = contents_in(alloc, value, index)?;
        found.push(contents)?;
    }
    Ok(found)
}

/// The groups at a key.
#[tactic(auto, unfolding(lalrpop_json_values::specs::Objects::field_at, lalrpop_json_values::specs::Objects::member_at))]
fn groups_field(
    alloc: Global,
    value: &JsonValue<'_>,
    key: Key,
) -> Result<List<MatchContents>, ReadError>
    ensures { Gives result (field_at key (list_at (λ _. contents_at)) (view value.now)) }
{
    let found = member(alloc, value, key)?;
    Ok(at_key(groups_of(alloc, found), key)?)
}

/// A match block.
#[tactic(auto, unfolding(crate::specs::Matches::match_at))]
pub fn match_of(alloc: Global, value: &JsonValue<'_>) -> Result<MatchToken, ReadError>
    ensures { Gives result (match_at (view value.now)) }
{
    keys(alloc, value, &[Key::Contents, Key::Kind, Key::Span])?;
    let contents = groups_field(alloc, value, Key::Contents)?;
    word_field(alloc, value, Key::Kind, Word::Match)?;
    let span = span_field(alloc, value, Key::Span)?;
    Ok(MatchToken { contents, span })
}
