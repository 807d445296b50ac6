//! Which declared types have a spelling, and the JSON value of each.

ghost use Rattle.std.specs.Prelude.{◌≡◌, ◌↔◌, IfOk, IsTrue};
ghost use Rattle.serde_json.specs.View.{view};
ghost use Rattle.lalrpop_json_values.specs.Spelled.{IfSome, list_json, option_json};
ghost use Rattle.lalrpop_json_symbols.specs.Readable.{AreReadableTypes, IsReadableType};
ghost use Rattle.lalrpop_json_symbols.specs.Spelling.{nominal_json, ref_json, tuple_json, type_json};

use crate::writer::scalar::optional_text_value;
use crate::writer::symbol::{is_readable_symbol, symbol_value};
use lalrpop_grammar::types::TypeRef;
use lalrpop_grammar_symbols::Atom;
use lalrpop_json_values::{JsonObject, Key, is_name};
use serde_json::Value;
use std::alloc::{AllocError, Global};

/// Whether the type has a spelling.
#[cycle(readable_types)]
#[tactic(auto, using(crate::proofs::TypeSpellingLemmas::types_told))]
pub(crate) fn is_readable_type(declared: &TypeRef) -> bool
    ensures { IsTrue result ↔ IsReadableType declared.now }
{
    match declared {
        TypeRef::Tuple(parts) => are_readable_types(parts.as_slice()),
        TypeRef::Nominal { types, .. } => are_readable_types(types.as_slice()),
        TypeRef::Id(name) => is_name(name.as_str()),
        TypeRef::OfSymbol(symbol) => is_readable_symbol(symbol),
        TypeRef::Ref { referent, .. } => is_readable_type(referent.get()),
        TypeRef::Opaque(_) => true,
    }
}

#[cycle(readable_types)]
#[tactic(auto, using(crate::proofs::EachLemmas::each, crate::proofs::TypeSpellingLemmas::type_lists))]
fn are_readable_types(types: &[TypeRef]) -> bool
    ensures { IsTrue result ↔ AreReadableTypes types.now }
{
    for declared in types {
        if !is_readable_type(declared) {
            return false;
        }
    }
    true
}

/// Whether the type, where there is one, has a spelling.
pub fn is_readable_declaration(declared: &Option<TypeRef>) -> bool
    ensures { IsTrue result ↔ IfSome IsReadableType declared.now }
{
    match declared {
        None => true,
        Some(declared) => is_readable_type(declared),
    }
}

#[cycle(types)]
#[tactic(auto, unfolding(lalrpop_json_values::specs::Key::key_text))]
fn tuple_value(alloc: Global, parts: &[TypeRef]) -> Result<Value, AllocError>
    ensures { IfOk result (λ value. view value ≡ tuple_json (list_json type_json parts.now)) }
{
    let parts = types_value(alloc, parts)?;
    JsonObject::of_one(alloc, Key::Tuple, parts)
}

#[cycle(types)]
#[tactic(auto, unfolding(lalrpop_json_values::specs::Key::key_text))]
fn nominal_value(alloc: Global, path: &str, types: &[TypeRef]) -> Result<Value, AllocError>
    ensures { IfOk result (λ value.
        view value ≡ nominal_json path.now (list_json type_json types.now)) }
{
    let mut object = JsonObject::new(alloc);
    object.put(Key::Args, types_value(alloc, types)?)?;
    object.put_text(Key::Path, path)?;
    Ok(object.into_value())
}

#[cycle(types)]
#[tactic(auto, unfolding(lalrpop_json_values::specs::Key::key_text))]
fn reference_value(
    alloc: Global,
    lifetime: &Option<Atom>,
    mutable: bool,
    referent: &TypeRef,
) -> Result<Value, AllocError>
    ensures { IfOk result (λ value.
        view value ≡ ref_json lifetime.now mutable (type_json referent.now)) }
{
    let mut object = JsonObject::new(alloc);
    object.put(Key::Lifetime, optional_text_value(alloc, lifetime)?)?;
    object.put(Key::Mutable, Value::from(mutable))?;
    object.put(Key::Ref, type_value(alloc, referent)?)?;
    Ok(object.into_value())
}

/// The type as an object. That of a type without a spelling isn't read.
#[cycle(types)]
#[tactic(auto, unfolding(lalrpop_json_values::specs::Key::key_text))]
pub(crate) fn type_value(alloc: Global, declared: &TypeRef) -> Result<Value, AllocError>
    ensures { IfOk result (λ value. view value ≡ type_json declared.now) }
{
    match declared {
        TypeRef::Tuple(parts) => tuple_value(alloc, parts.as_slice()),
        TypeRef::Nominal { path, types } => {
            nominal_value(alloc, path.as_str(), types.as_slice())
        }
        TypeRef::Id(name) => JsonObject::of_text(alloc, Key::Id, name.as_str()),
        TypeRef::OfSymbol(symbol) => {
            let symbol = symbol_value(alloc, symbol)?;
            JsonObject::of_one(alloc, Key::Symbol, symbol)
        }
        TypeRef::Ref {
            lifetime,
            mutable,
            referent,
        } => reference_value(alloc, lifetime, *mutable, referent.get()),
        TypeRef::Opaque(text) => JsonObject::of_text(alloc, Key::Text, text.as_str()),
    }
}

#[cycle(types)]
#[tactic(auto, using(crate::proofs::ListLemmas::listed))]
fn types_value(alloc: Global, types: &[TypeRef]) -> Result<Value, AllocError>
    ensures { IfOk result (λ value. view value ≡ list_json type_json types.now) }
{
    let mut values = Vec::new(alloc);
    for declared in types {
        values.push(type_value(alloc, declared)?)?;
    }
    Ok(Value::Array(values))
}

/// The type, or `null`.
pub fn declaration_value(alloc: Global, declared: &Option<TypeRef>) -> Result<Value, AllocError>
    ensures { IfOk result (λ value. view value ≡ option_json type_json declared.now) }
{
    match declared {
        None => Ok(Value::Null),
        Some(declared) => type_value(alloc, declared),
    }
}
