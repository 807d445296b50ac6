//! Which extern blocks have a spelling, and the JSON value of each.

ghost use Rattle.std.specs.Prelude.{◌≡◌, ◌↔◌, IfOk, IsTrue};
ghost use Rattle.serde_json.specs.View.{view};
ghost use Rattle.lalrpop_json_values.specs.Spelled.{EachFrom, IfSome, list_json, option_json};
ghost use Rattle.lalrpop_json_items.specs.Readable.{IsReadableAssociated, IsReadableConversion, IsReadableEnum, IsReadableExtern};
ghost use Rattle.lalrpop_json_items.specs.Spelling.{associated_json, conversion_json, enum_json, extern_json};

use lalrpop_grammar::{AssociatedType, Conversion, EnumToken, ExternToken};
use lalrpop_json_symbols::writer::{
    is_readable_span, is_readable_terminal, span_value, terminal_value,
};
use lalrpop_json_values::{JsonObject, Key, is_name};
use serde_json::Value;
use std::alloc::{AllocError, Global};

#[tactic(auto, using(lalrpop_json_symbols::proofs::EachLemmas::each))]
fn are_readable_associated(associated: &[AssociatedType]) -> bool
    ensures { IsTrue result ↔ EachFrom (λ _. IsReadableAssociated) 0 associated.now }
{
    for declared in associated {
        if !is_name(declared.name.as_str()) {
            return false;
        }
    }
    true
}

#[tactic(auto, using(lalrpop_json_symbols::proofs::EachLemmas::each))]
fn are_readable_conversions(conversions: &[Conversion]) -> bool
    ensures { IsTrue result ↔ EachFrom (λ _. IsReadableConversion) 0 conversions.now }
{
    for conversion in conversions {
        if !is_readable_terminal(&conversion.from) {
            return false;
        }
    }
    true
}

fn is_readable_enum(tokens: &Option<EnumToken>) -> bool
    ensures { IsTrue result ↔ IfSome IsReadableEnum tokens.now }
{
    match tokens {
        None => true,
        Some(tokens) => are_readable_conversions(tokens.conversions.as_slice()),
    }
}

/// Whether the extern block has a spelling.
#[tactic(auto, using(crate::proofs::ItemSpellingLemmas::externs_told))]
pub(crate) fn is_readable_extern(block: &ExternToken) -> bool
    ensures { IsTrue result ↔ IsReadableExtern block.now }
{
    are_readable_associated(block.associated_types.as_slice())
        && is_readable_enum(&block.enum_token)
        && is_readable_span(block.span)
}

#[tactic(auto, unfolding(lalrpop_json_values::specs::Key::key_text))]
fn associated_type_value(alloc: Global, declared: &AssociatedType) -> Result<Value, AllocError>
    ensures { IfOk result (λ value. view value ≡ associated_json declared.now) }
{
    let mut object = JsonObject::new(alloc);
    object.put_text(Key::Name, declared.name.as_str())?;
    object.put_text(Key::DeclaredType, declared.type_text.as_str())?;
    Ok(object.into_value())
}

#[tactic(auto, using(lalrpop_json_symbols::proofs::ListLemmas::listed))]
fn associated_value(alloc: Global, associated: &[AssociatedType]) -> Result<Value, AllocError>
    ensures { IfOk result (λ value. view value ≡ list_json associated_json associated.now) }
{
    let mut values = Vec::new(alloc);
    for declared in associated {
        values.push(associated_type_value(alloc, declared)?)?;
    }
    Ok(Value::Array(values))
}

#[tactic(auto, unfolding(lalrpop_json_values::specs::Key::key_text))]
fn conversion_value(alloc: Global, conversion: &Conversion) -> Result<Value, AllocError>
    ensures { IfOk result (λ value. view value ≡ conversion_json conversion.now) }
{
    let mut object = JsonObject::new(alloc);
    object.put(Key::From, terminal_value(alloc, &conversion.from)?)?;
    object.put_text(Key::To, conversion.to.as_str())?;
    Ok(object.into_value())
}

#[tactic(auto, using(lalrpop_json_symbols::proofs::ListLemmas::listed))]
fn conversions_value(alloc: Global, conversions: &[Conversion]) -> Result<Value, AllocError>
    ensures { IfOk result (λ value. view value ≡ list_json conversion_json conversions.now) }
{
    let mut values = Vec::new(alloc);
    for conversion in conversions {
        values.push(conversion_value(alloc, conversion)?)?;
    }
    Ok(Value::Array(values))
}

/// The user's tokens as an object, or `null`.
#[tactic(auto, unfolding(lalrpop_json_values::specs::Key::key_text))]
fn enum_value(alloc: Global, tokens: &Option<EnumToken>) -> Result<Value, AllocError>
    ensures { IfOk result (λ value. view value ≡ option_json enum_json tokens.now) }
{
    let Some(tokens) = tokens else {
        return Ok(Value::Null);
    };
    let mut object = JsonObject::new(alloc);
    object.put(
        Key::Conversions,
        conversions_value(alloc, tokens.conversions.as_slice())?,
    )?;
    object.put_text(Key::DeclaredType, tokens.type_text.as_str())?;
    Ok(object.into_value())
}

/// The extern block as an object. That of a block without a spelling isn't read.
#[tactic(auto, unfolding(lalrpop_json_values::specs::Key::key_text, lalrpop_json_values::specs::Word::word_text))]
pub(crate) fn extern_value(alloc: Global, block: &ExternToken) -> Result<Value, AllocError>
    ensures { IfOk result (λ value. view value ≡ extern_json block.now) }
{
    let mut object = JsonObject::new(alloc);
    object.put(
        Key::Associated,
        associated_value(alloc, block.associated_types.as_slice())?,
    )?;
    object.put(Key::Enum, enum_value(alloc, &block.enum_token)?)?;
    object.put_text(Key::Kind, "extern")?;
    object.put(Key::Span, span_value(alloc, block.span)?)?;
    Ok(object.into_value())
}
