//! How extern blocks are read from JSON values.

ghost use Rattle.std.specs.Prelude.{◌≡◌};
ghost use Rattle.lalrpop_json_document.specs.DocumentViews.{view};
ghost use Rattle.lalrpop_json_values.specs.Gives.{Gives, within};
ghost use Rattle.lalrpop_json_values.specs.Lists.{list_at};
ghost use Rattle.lalrpop_json_values.specs.Objects.{field_at};
ghost use Rattle.lalrpop_json_values.specs.Scalars.{optional};
ghost use Rattle.lalrpop_json_items.specs.Externs.{associated_at, conversion_at, enum_at, extern_at};
ghost use Rattle.lalrpop_json_values.specs.declared.fault.Step.TheVariants as step;

use lalrpop_grammar::{AssociatedType, Conversion, EnumToken, ExternToken};
use lalrpop_grammar_symbols::List;
use lalrpop_json_document::JsonValue;
use lalrpop_json_symbols::terminal_field;
use lalrpop_json_values::{
    FaultKind, Key, ReadError, Word, at_index, at_key, here, keys, member, name_field, span_field,
    text_field, word_field,
};
use std::alloc::Global;

/// An associated type.
#[tactic(auto, unfolding(crate::specs::Externs::associated_at))]
fn associated_of(alloc: Global, value: &JsonValue<'_>) -> Result<AssociatedType, ReadError>
    ensures { Gives result (associated_at (view value.now)) }
{
    keys(alloc, value, &[Key::Name, Key::DeclaredType])?;
    let name = name_field(alloc, value, Key::Name)?;
    let type_text = text_field(alloc, value, Key::DeclaredType)?;
    Ok(AssociatedType { name, type_text })
}

fn associated_in(
    alloc: Global,
    value: &JsonValue<'_>,
    index: usize,
) -> Result<AssociatedType, ReadError>
    ensures { Gives result (within (step.Index index) (associated_at (view value.now))) }
{
    Ok(at_index(associated_of(alloc, value), index)?)
}

/// A list of associated types.
#[tactic(auto, using(lalrpop_json_values::proofs::ListReadingLemmas::lists), unfolding(lalrpop_json_values::specs::Lists::list_at))]
fn associated_types_of(
    alloc: Global,
    value: &JsonValue<'_>,
) -> Result<List<AssociatedType>, ReadError>
    ensures { Gives result (list_at (λ _. associated_at) (view value.now)) }
{
    let Some(values) = value.as_array() else {
        return Err(here(alloc, FaultKind::WrongShape));
    };
    let mut found = List::new(alloc);
    for (index, value) in values.iter().enumerate() {
        let associated = associated_in(alloc, value, index)?;
        found.push(associated)?;
    }
    Ok(found)
}

/// The associated types at a key.
#[tactic(auto, unfolding(lalrpop_json_values::specs::Objects::field_at, lalrpop_json_values::specs::Objects::member_at))]
fn associated_types_field(
    alloc: Global,
    value: &JsonValue<'_>,
    key: Key,
) -> Result<List<AssociatedType>, ReadError>
    ensures { Gives result (field_at key (list_at (λ _. associated_at)) (view value.now)) }
{
    let found = member(alloc, value, key)?;
    Ok(at_key(associated_types_of(alloc, found), key)?)
}

/// How a token of the user is seen.
#[tactic(auto, unfolding(crate::specs::Externs::conversion_at))]
fn conversion_of(alloc: Global, value: &JsonValue<'_>) -> Result<Conversion, ReadError>
    ensures { Gives result (conversion_at (view value.now)) }
{
    keys(alloc, value, &[Key::From, Key::To])?;
    let from = terminal_field(alloc, value, Key::From)?;
    let to = text_field(alloc, value, Key::To)?;
    Ok(Conversion { from, to })
}

fn conversion_in(
    alloc: Global,
    value: &JsonValue<'_>,
    index: usize,
) -> Result<Conversion, ReadError>
    ensures { Gives result (within (step.Index index) (conversion_at (view value.now))) }
{
    Ok(at_index(conversion_of(alloc, value), index)?)
}

/// A list of conversions.
#[tactic(auto, using(lalrpop_json_values::proofs::ListReadingLemmas::lists), unfolding(lalrpop_json_values::specs::Lists::list_at))]
fn conversions_of(alloc: Global, value: &JsonValue<'_>) -> Result<List<Conversion>, ReadError>
    ensures { Gives result (list_at (λ _. conversion_at) (view value.now)) }
{
    let Some(values) = value.as_array() else {
        return Err(here(alloc, FaultKind::WrongShape));
    };
    let mut found = List::new(alloc);
    for (index, value) in values.iter().enumerate() {
        let conversion = conversion_in(alloc, value, index)?;
        found.push(conversion)?;
    }
    Ok(found)
}

/// The conversions at a key.
#[tactic(auto, unfolding(lalrpop_json_values::specs::Objects::field_at, lalrpop_json_values::specs::Objects::member_at))]
fn conversions_field(
    alloc: Global,
    value: &JsonValue<'_>,
    key: Key,
) -> Result<List<Conversion>, ReadError>
    ensures { Gives result (field_at key (list_at (λ _. conversion_at)) (view value.now)) }
{
    let found = member(alloc, value, key)?;
    Ok(at_key(conversions_of(alloc, found), key)?)
}

/// The user's own tokens.
#[tactic(auto, unfolding(crate::specs::Externs::enum_at))]
fn enum_of(alloc: Global, value: &JsonValue<'_>) -> Result<EnumToken, ReadError>
    ensures { Gives result (enum_at (view value.now)) }
{
    keys(alloc, value, &[Key::Conversions, Key::DeclaredType])?;
    let conversions = conversions_field(alloc, value, Key::Conversions)?;
    let type_text = text_field(alloc, value, Key::DeclaredType)?;
    Ok(EnumToken {
        conversions,
        type_text,
    })
}

/// `null`, or the user's own tokens.
fn optional_enum_of(alloc: Global, value: &JsonValue<'_>) -> Result<Option<EnumToken>, ReadError>
    ensures { Gives result (optional enum_at (view value.now)) }
{
    if value.is_null() {
        return Ok(None);
    }
    let found = enum_of(alloc, value)?;
    Ok(Some(found))
}

/// The user's own tokens at a key, or `null`.
#[tactic(auto, unfolding(lalrpop_json_values::specs::Objects::field_at, lalrpop_json_values::specs::Objects::member_at))]
fn enum_field(
    alloc: Global,
    value: &JsonValue<'_>,
    key: Key,
) -> Result<Option<EnumToken>, ReadError>
    ensures { Gives result (field_at key (optional enum_at) (view value.now)) }
{
    let found = member(alloc, value, key)?;
    Ok(at_key(optional_enum_of(alloc, found), key)?)
}

/// An extern block.
#[tactic(auto, unfolding(crate::specs::Externs::extern_at))]
pub fn extern_of(alloc: Global, value: &JsonValue<'_>) -> Result<ExternToken, ReadError>
    ensures { Gives result (extern_at (view value.now)) }
{
    keys(
        alloc,
        value,
        &[Key::Associated, Key::Enum, Key::Kind, Key::Span],
    )?;
    let associated_types = associated_types_field(alloc, value, Key::Associated)?;
    let enum_token = enum_field(alloc, value, Key::Enum)?;
    word_field(alloc, value, Key::Kind, Word::Extern)?;
    let span = span_field(alloc, value, Key::Span)?;
    Ok(ExternToken {
        span,
        associated_types,
        enum_token,
    })
}
