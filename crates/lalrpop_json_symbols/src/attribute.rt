//! How attributes are read from JSON values.

ghost use Rattle.std.specs.Prelude.{◌≡◌};
ghost use Rattle.lalrpop_json_document.specs.DocumentViews.{view};
ghost use Rattle.lalrpop_json_values.specs.Gives.{Gives, within};
ghost use Rattle.lalrpop_json_values.specs.Lists.{list_at};
ghost use Rattle.lalrpop_json_values.specs.Objects.{field_at};
ghost use Rattle.lalrpop_json_symbols.specs.Attributes.{arg_at, attribute_at, equal_at, paren_at};
ghost use Rattle.lalrpop_json_values.specs.declared.fault.Step.TheVariants as step;

use lalrpop_grammar::types::{Attribute, AttributeArg};
use lalrpop_grammar_symbols::List;
use lalrpop_json_document::JsonValue;
use lalrpop_json_values::{
    FaultKind, Form, Key, ReadError, Step, at_key, form_by_key, here, keys, member, name_field,
    outside, span_field, text_field,
};
use std::alloc::Global;

#[tactic(auto, unfolding(crate::specs::Attributes::equal_at))]
fn equal_of(alloc: Global, value: &JsonValue<'_>) -> Result<AttributeArg, ReadError>
    ensures { Gives result (equal_at (view value.now)) }
{
    keys(alloc, value, &[Key::Equal])?;
    let text = text_field(alloc, value, Key::Equal)?;
    Ok(AttributeArg::Equal(text))
}

#[cycle(attributes)]
#[tactic(auto, using(crate::proofs::AttributeNestingLemmas::attribute_nesting), unfolding(crate::specs::Attributes::paren_at))]
fn paren_of(alloc: Global, value: &JsonValue<'_>) -> Result<AttributeArg, ReadError>
    ensures { Gives result (paren_at attribute_at (view value.now)) }
{
    keys(alloc, value, &[Key::Paren])?;
    let parts = attributes_field(alloc, value, Key::Paren)?;
    Ok(AttributeArg::Paren(parts))
}

/// What stands behind an attribute's name.
#[cycle(attributes)]
#[tactic(auto, using(crate::proofs::AttributeNestingLemmas::attribute_nesting), unfolding(crate::specs::Attributes::arg_at))]
fn arg_of(alloc: Global, value: &JsonValue<'_>) -> Result<AttributeArg, ReadError>
    ensures { Gives result (arg_at attribute_at (view value.now)) }
{
    if value.is_null() {
        return Ok(AttributeArg::Empty);
    }
    let rows = [(Key::Equal, Form::Equal), (Key::Paren, Form::Paren)];
    match form_by_key(&rows, value) {
        Some(Form::Equal) => equal_of(alloc, value),
        Some(Form::Paren) => paren_of(alloc, value),
        _ => Err(here(alloc, FaultKind::WrongShape)),
    }
}

/// What stands behind an attribute's name, at a key.
#[cycle(attributes)]
#[tactic(auto, using(crate::proofs::AttributeNestingLemmas::attribute_nesting), unfolding(lalrpop_json_values::specs::Objects::field_at, lalrpop_json_values::specs::Objects::member_at))]
fn arg_field(alloc: Global, value: &JsonValue<'_>, key: Key) -> Result<AttributeArg, ReadError>
    ensures { Gives result (field_at key (arg_at attribute_at) (view value.now)) }
{
    let found = member(alloc, value, key)?;
    Ok(at_key(arg_of(alloc, found), key)?)
}

/// An attribute.
#[cycle(attributes)]
#[tactic(auto, using(crate::proofs::AttributeNestingLemmas::attribute_nesting), unfolding(crate::specs::Attributes::attribute_layer_at))]
pub fn attribute_of(alloc: Global, value: &JsonValue<'_>) -> Result<Attribute, ReadError>
    ensures { Gives result (attribute_at (view value.now)) }
{
    keys(alloc, value, &[Key::Arg, Key::Id, Key::Span])?;
    let arg = arg_field(alloc, value, Key::Arg)?;
    let id = name_field(alloc, value, Key::Id)?;
    let span = span_field(alloc, value, Key::Span)?;
    Ok(Attribute { span, id, arg })
}

#[cycle(attributes)]
fn attribute_in(alloc: Global, value: &JsonValue<'_>, index: usize) -> Result<Attribute, ReadError>
    ensures { Gives result (within (step.Index index) (attribute_at (view value.now))) }
{
    match attribute_of(alloc, value) {
        Ok(found) => Ok(found),
        Err(error) => Err(outside(error, Step::Index(index))),
    }
}

/// A list of attributes.
#[cycle(attributes)]
#[tactic(auto, using(crate::proofs::AttributeNestingLemmas::attribute_nesting, lalrpop_json_values::proofs::ListReadingLemmas::lists), unfolding(lalrpop_json_values::specs::Lists::list_at))]
fn attributes_of(alloc: Global, value: &JsonValue<'_>) -> Result<List<Attribute>, ReadError>
    ensures { Gives result (list_at (λ _. attribute_at) (view value.now)) }
{
    let Some(values) = value.as_array() else {
        return Err(here(alloc, FaultKind::WrongShape));
    };
    let mut attributes = List::new(alloc);
    for (index, value) in values.iter().enumerate() {
        let attribute = attribute_in(alloc, value, index)?;
        attributes.push(attribute)?;
    }
    Ok(attributes)
}

/// The attributes at a key.
#[cycle(attributes)]
#[tactic(auto, using(crate::proofs::AttributeNestingLemmas::attribute_nesting), unfolding(lalrpop_json_values::specs::Objects::field_at, lalrpop_json_values::specs::Objects::member_at))]
pub fn attributes_field(
    alloc: Global,
    value: &JsonValue<'_>,
    key: Key,
) -> Result<List<Attribute>, ReadError>
    ensures { Gives result (field_at key (list_at (λ _. attribute_at)) (view value.now)) }
{
    let found = member(alloc, value, key)?;
    Ok(at_key(attributes_of(alloc, found), key)?)
}
