//! Which attributes have a spelling, and the JSON value of each.

ghost use Rattle.std.specs.Prelude.{◌≡◌, ◌↔◌, IfOk, IsTrue};
ghost use Rattle.serde_json.specs.View.{view};
ghost use Rattle.lalrpop_json_values.specs.Spelled.{list_json};
ghost use Rattle.lalrpop_json_symbols.specs.Readable.{AreReadableAttributes, IsReadableArg, IsReadableAttribute};
ghost use Rattle.lalrpop_json_symbols.specs.Spelling.{arg_json, attribute_json};

use crate::writer::scalar::{is_readable_span, span_value};
use lalrpop_grammar::types::{Attribute, AttributeArg};
use lalrpop_json_values::{JsonObject, Key, is_name};
use serde_json::Value;
use std::alloc::{AllocError, Global};

/// Whether the attribute has a spelling.
#[cycle(readable_attributes)]
#[tactic(auto, using(crate::proofs::AttributeSpellingLemmas::attributes_told))]
fn is_readable_attribute(attribute: &Attribute) -> bool
    ensures { IsTrue result ↔ IsReadableAttribute attribute.now }
{
    is_name(attribute.id.as_str())
        && is_readable_span(attribute.span)
        && is_readable_argument(&attribute.arg)
}

#[cycle(readable_attributes)]
#[tactic(auto, using(crate::proofs::AttributeSpellingLemmas::arguments_told))]
fn is_readable_argument(argument: &AttributeArg) -> bool
    ensures { IsTrue result ↔ IsReadableArg argument.now }
{
    match argument {
        AttributeArg::Paren(parts) => are_readable_attributes(parts.as_slice()),
        AttributeArg::Empty | AttributeArg::Equal(_) => true,
    }
}

/// Whether each of the attributes has a spelling.
#[cycle(readable_attributes)]
#[tactic(auto, using(crate::proofs::EachLemmas::each, crate::proofs::AttributeSpellingLemmas::attribute_lists))]
pub fn are_readable_attributes(attributes: &[Attribute]) -> bool
    ensures { IsTrue result ↔ AreReadableAttributes attributes.now }
{
    for attribute in attributes {
        if !is_readable_attribute(attribute) {
            return false;
        }
    }
    true
}

#[cycle(attributes)]
#[tactic(auto, unfolding(lalrpop_json_values::specs::Key::key_text))]
fn attribute_value(alloc: Global, attribute: &Attribute) -> Result<Value, AllocError>
    ensures { IfOk result (λ value. view value ≡ attribute_json attribute.now) }
{
    let mut object = JsonObject::new(alloc);
    object.put(Key::Arg, argument_value(alloc, &attribute.arg)?)?;
    object.put_text(Key::Id, attribute.id.as_str())?;
    object.put(Key::Span, span_value(alloc, attribute.span)?)?;
    Ok(object.into_value())
}

#[cycle(attributes)]
#[tactic(auto, unfolding(lalrpop_json_values::specs::Key::key_text))]
fn argument_value(alloc: Global, argument: &AttributeArg) -> Result<Value, AllocError>
    ensures { IfOk result (λ value. view value ≡ arg_json argument.now) }
{
    match argument {
        AttributeArg::Empty => Ok(Value::Null),
        AttributeArg::Paren(parts) => {
            let parts = attributes_value(alloc, parts.as_slice())?;
            JsonObject::of_one(alloc, Key::Paren, parts)
        }
        AttributeArg::Equal(text) => JsonObject::of_text(alloc, Key::Equal, text.as_str()),
    }
}

/// The attributes as a list.
#[cycle(attributes)]
#[tactic(auto, using(crate::proofs::ListLemmas::listed))]
pub fn attributes_value(alloc: Global, attributes: &[Attribute]) -> Result<Value, AllocError>
    ensures { IfOk result (λ value. view value ≡ list_json attribute_json attributes.now) }
{
    let mut values = Vec::new(alloc);
    for attribute in attributes {
        values.push(attribute_value(alloc, attribute)?)?;
    }
    Ok(Value::Array(values))
}
