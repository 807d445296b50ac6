//! Which match blocks have a spelling, and the JSON value of each.

ghost use Rattle.std.specs.Prelude.{◌≡◌, ◌↔◌, ◌∷◌, [], IfOk, IsTrue};
ghost use Rattle.serde_json.specs.View.{view};
ghost use Rattle.lalrpop_json_values.specs.Spelled.{EachFrom, list_json, object_of, span_json};
ghost use Rattle.lalrpop_json_values.specs.declared.key.Key.TheVariants as key;
ghost use Rattle.lalrpop_json_items.specs.Readable.{IsReadableContents, IsReadableEntry, IsReadableMapping, IsReadableMatch};
ghost use Rattle.lalrpop_json_items.specs.Spelling.{contents_json, entry_json, mapping_json, match_json};

use lalrpop_grammar::{MatchContents, MatchItem, MatchMapping, MatchToken};
use lalrpop_grammar_symbols::Span;
use lalrpop_json_symbols::writer::{
    is_readable_span, is_readable_terminal, literal_value, span_value, terminal_value,
};
use lalrpop_json_values::{JsonObject, Key};
use serde_json::Value;
use std::alloc::{AllocError, Global};

#[tactic(auto, using(crate::proofs::MatchSpellingLemmas::mappings_told))]
fn is_readable_mapping(mapping: &MatchMapping) -> bool
    ensures { IsTrue result ↔ IsReadableMapping mapping.now }
{
    match mapping {
        MatchMapping::Skip => true,
        MatchMapping::Terminal(terminal) => is_readable_terminal(terminal),
    }
}

fn is_readable_entry(entry: &MatchItem) -> bool
    ensures { IsTrue result ↔ IsReadableEntry entry.now }
{
    match entry {
        MatchItem::CatchAll(span) => is_readable_span(*span),
        MatchItem::Unmapped(_, span) => is_readable_span(*span),
        MatchItem::Mapped(_, mapping, span) => {
            is_readable_mapping(mapping) && is_readable_span(*span)
        }
    }
}

#[tactic(auto, using(lalrpop_json_symbols::proofs::EachLemmas::each))]
fn is_readable_group(group: &MatchContents) -> bool
    ensures { IsTrue result ↔ IsReadableContents group.now }
{
    for entry in group.items.as_slice() {
        if !is_readable_entry(entry) {
            return false;
        }
    }
    true
}

#[tactic(auto, using(lalrpop_json_symbols::proofs::EachLemmas::each))]
fn are_readable_groups(groups: &[MatchContents]) -> bool
    ensures { IsTrue result ↔ EachFrom (λ _. IsReadableContents) 0 groups.now }
{
    for group in groups {
        if !is_readable_group(group) {
            return false;
        }
    }
    true
}

/// Whether the match block has a spelling.
#[tactic(auto, using(crate::proofs::MatchSpellingLemmas::matches_told))]
pub(crate) fn is_readable_match(block: &MatchToken) -> bool
    ensures { IsTrue result ↔ IsReadableMatch block.now }
{
    are_readable_groups(block.contents.as_slice()) && is_readable_span(block.span)
}

#[tactic(auto, unfolding(lalrpop_json_values::specs::Word::word_text))]
fn mapping_value(alloc: Global, mapping: &MatchMapping) -> Result<Value, AllocError>
    ensures { IfOk result (λ value. view value ≡ mapping_json mapping.now) }
{
    match mapping {
        MatchMapping::Skip => Value::try_from_str(alloc, "skip"),
        MatchMapping::Terminal(terminal) => terminal_value(alloc, terminal),
    }
}

/// What a literal is mapped to, beside it.
#[tactic(auto, unfolding(lalrpop_json_values::specs::Key::key_text))]
fn mapped_value(
    alloc: Global,
    literal: Value,
    mapping: Value,
    span: Span,
) -> Result<Value, AllocError>
    ensures { IfOk result (λ value. view value
        ≡ object_of ((key.Literal, view literal) ∷ (key.Map, view mapping) ∷ (key.Span, span_json span) ∷ [])) }
{
    let mut object = JsonObject::new(alloc);
    object.put(Key::Literal, literal)?;
    object.put(Key::Map, mapping)?;
    object.put(Key::Span, span_value(alloc, span)?)?;
    Ok(object.into_value())
}

#[tactic(auto, unfolding(lalrpop_json_values::specs::Key::key_text))]
fn entry_value(alloc: Global, entry: &MatchItem) -> Result<Value, AllocError>
    ensures { IfOk result (λ value. view value ≡ entry_json entry.now) }
{
    match entry {
        MatchItem::CatchAll(span) => {
            let span = span_value(alloc, *span)?;
            JsonObject::of_one(alloc, Key::CatchAll, span)
        }
        MatchItem::Unmapped(literal, span) => {
            let literal = literal_value(alloc, literal)?;
            mapped_value(alloc, literal, Value::Null, *span)
        }
        MatchItem::Mapped(literal, mapping, span) => {
            let literal = literal_value(alloc, literal)?;
            mapped_value(alloc, literal, mapping_value(alloc, mapping)?, *span)
        }
    }
}

#[tactic(auto, using(lalrpop_json_symbols::proofs::ListLemmas::listed))]
fn group_value(alloc: Global, group: &MatchContents) -> Result<Value, AllocError>
    ensures { IfOk result (λ value. view value ≡ contents_json group.now) }
{
    let mut values = Vec::new(alloc);
    for entry in group.items.as_slice() {
        values.push(entry_value(alloc, entry)?)?;
    }
    Ok(Value::Array(values))
}

#[tactic(auto, using(lalrpop_json_symbols::proofs::ListLemmas::listed))]
fn groups_value(alloc: Global, groups: &[MatchContents]) -> Result<Value, AllocError>
    ensures { IfOk result (λ value. view value ≡ list_json contents_json groups.now) }
{
    let mut values = Vec::new(alloc);
    for group in groups {
        values.push(group_value(alloc, group)?)?;
    }
    Ok(Value::Array(values))
}

/// The match block as an object. That of a block without a spelling isn't read as this block.
#[tactic(auto, unfolding(lalrpop_json_values::specs::Key::key_text, lalrpop_json_values::specs::Word::word_text))]
pub(crate) fn match_value(alloc: Global, block: &MatchToken) -> Result<Value, AllocError>
    ensures { IfOk result (λ value. view value ≡ match_json block.now) }
{
    let mut object = JsonObject::new(alloc);
    object.put(
        Key::Contents,
        groups_value(alloc, block.contents.as_slice())?,
    )?;
    object.put_text(Key::Kind, "match")?;
    object.put(Key::Span, span_value(alloc, block.span)?)?;
    Ok(object.into_value())
}
