//! How declared types are read from JSON values.

ghost use Rattle.std.specs.Prelude.{◌≡◌};
ghost use Rattle.lalrpop_json_document.specs.DocumentViews.{view};
ghost use Rattle.lalrpop_json_values.specs.Gives.{Gives, within};
ghost use Rattle.lalrpop_json_values.specs.Lists.{list_at};
ghost use Rattle.lalrpop_json_values.specs.Objects.{field_at};
ghost use Rattle.lalrpop_json_values.specs.Scalars.{optional};
ghost use Rattle.lalrpop_json_symbols.specs.Types.{nominal_at, of_symbol_at, opaque_at, id_type_at, ref_at, tuple_at, type_at};
ghost use Rattle.lalrpop_json_values.specs.declared.fault.Step.TheVariants as step;

use crate::symbol::symbol_field;
use lalrpop_grammar::types::TypeRef;
use lalrpop_grammar_symbols::{Boxed, List};
use lalrpop_json_document::JsonValue;
use lalrpop_json_values::{
    FaultKind, Form, Key, ReadError, Step, at_key, flag_field, form_by_key, here, keys, member,
    name_field, optional_text_field, outside, text_field,
};
use std::alloc::Global;

#[tactic(auto, unfolding(crate::specs::Types::id_type_at))]
fn parameter_of(alloc: Global, value: &JsonValue<'_>) -> Result<TypeRef, ReadError>
    ensures { Gives result (id_type_at (view value.now)) }
{
    keys(alloc, value, &[Key::Id])?;
    let name = name_field(alloc, value, Key::Id)?;
    Ok(TypeRef::Id(name))
}

#[tactic(auto, unfolding(crate::specs::Types::of_symbol_at))]
fn of_symbol_of(alloc: Global, value: &JsonValue<'_>) -> Result<TypeRef, ReadError>
    ensures { Gives result (of_symbol_at (view value.now)) }
{
    keys(alloc, value, &[Key::Symbol])?;
    let symbol = symbol_field(alloc, value, Key::Symbol)?;
    Ok(TypeRef::OfSymbol(symbol))
}

#[tactic(auto, unfolding(crate::specs::Types::opaque_at))]
fn opaque_of(alloc: Global, value: &JsonValue<'_>) -> Result<TypeRef, ReadError>
    ensures { Gives result (opaque_at (view value.now)) }
{
    keys(alloc, value, &[Key::Text])?;
    let text = text_field(alloc, value, Key::Text)?;
    Ok(TypeRef::Opaque(text))
}

#[cycle(types)]
#[tactic(auto, using(crate::proofs::TypeNestingLemmas::type_nesting), unfolding(crate::specs::Types::tuple_at))]
fn tuple_of(alloc: Global, value: &JsonValue<'_>) -> Result<TypeRef, ReadError>
    ensures { Gives result (tuple_at type_at (view value.now)) }
{
    keys(alloc, value, &[Key::Tuple])?;
    let types = types_field(alloc, value, Key::Tuple)?;
    Ok(TypeRef::Tuple(types))
}

#[cycle(types)]
#[tactic(auto, using(crate::proofs::TypeNestingLemmas::type_nesting), unfolding(crate::specs::Types::nominal_at))]
fn nominal_of(alloc: Global, value: &JsonValue<'_>) -> Result<TypeRef, ReadError>
    ensures { Gives result (nominal_at type_at (view value.now)) }
{
    keys(alloc, value, &[Key::Args, Key::Path])?;
    let types = types_field(alloc, value, Key::Args)?;
    let path = text_field(alloc, value, Key::Path)?;
    Ok(TypeRef::Nominal { path, types })
}

#[cycle(types)]
#[tactic(auto, using(crate::proofs::TypeNestingLemmas::type_nesting), unfolding(crate::specs::Types::ref_at))]
fn ref_of(alloc: Global, value: &JsonValue<'_>) -> Result<TypeRef, ReadError>
    ensures { Gives result (ref_at type_at (view value.now)) }
{
    keys(alloc, value, &[Key::Lifetime, Key::Mutable, Key::Ref])?;
    let lifetime = optional_text_field(alloc, value, Key::Lifetime)?;
    let mutable = flag_field(alloc, value, Key::Mutable)?;
    let referent = referent_field(alloc, value, Key::Ref)?;
    let referent = Boxed::new(alloc, referent)?;
    Ok(TypeRef::Ref {
        lifetime,
        mutable,
        referent,
    })
}

/// A type.
#[cycle(types)]
#[tactic(auto, using(crate::proofs::TypeNestingLemmas::type_nesting), unfolding(crate::specs::Types::type_layer_at))]
pub fn type_of(alloc: Global, value: &JsonValue<'_>) -> Result<TypeRef, ReadError>
    ensures { Gives result (type_at (view value.now)) }
{
    let rows = [
        (Key::Args, Form::Nominal),
        (Key::Id, Form::Id),
        (Key::Lifetime, Form::Ref),
        (Key::Mutable, Form::Ref),
        (Key::Path, Form::Nominal),
        (Key::Ref, Form::Ref),
        (Key::Symbol, Form::Symbol),
        (Key::Text, Form::Text),
        (Key::Tuple, Form::Tuple),
    ];
    match form_by_key(&rows, value) {
        Some(Form::Id) => parameter_of(alloc, value),
        Some(Form::Nominal) => nominal_of(alloc, value),
        Some(Form::Ref) => ref_of(alloc, value),
        Some(Form::Symbol) => of_symbol_of(alloc, value),
        Some(Form::Text) => opaque_of(alloc, value),
        Some(Form::Tuple) => tuple_of(alloc, value),
        _ => Err(here(alloc, FaultKind::WrongShape)),
    }
}

#[cycle(types)]
fn type_in(alloc: Global, value: &JsonValue<'_>, index: usize) -> Result<TypeRef, ReadError>
    ensures { Gives result (within (step.Index index) (type_at (view value.now))) }
{
    match type_of(alloc, value) {
        Ok(found) => Ok(found),
        Err(error) => Err(outside(error, Step::Index(index))),
    }
}

/// A list of types.
#[cycle(types)]
#[tactic(auto, using(crate::proofs::TypeNestingLemmas::type_nesting, lalrpop_json_values::proofs::ListReadingLemmas::lists), unfolding(lalrpop_json_values::specs::Lists::list_at))]
fn types_of(alloc: Global, value: &JsonValue<'_>) -> Result<List<TypeRef>, ReadError>
    ensures { Gives result (list_at (λ _. type_at) (view value.now)) }
{
    let Some(values) = value.as_array() else {
        return Err(here(alloc, FaultKind::WrongShape));
    };
    let mut types = List::new(alloc);
    for (index, value) in values.iter().enumerate() {
        let found = type_in(alloc, value, index)?;
        types.push(found)?;
    }
    Ok(types)
}

/// The type at a key.
#[cycle(types)]
#[tactic(auto, using(crate::proofs::TypeNestingLemmas::type_nesting), unfolding(lalrpop_json_values::specs::Objects::field_at, lalrpop_json_values::specs::Objects::member_at))]
fn referent_field(alloc: Global, value: &JsonValue<'_>, key: Key) -> Result<TypeRef, ReadError>
    ensures { Gives result (field_at key type_at (view value.now)) }
{
    let found = member(alloc, value, key)?;
    Ok(at_key(type_of(alloc, found), key)?)
}

/// The types at a key.
#[cycle(types)]
#[tactic(auto, using(crate::proofs::TypeNestingLemmas::type_nesting), unfolding(lalrpop_json_values::specs::Objects::field_at, lalrpop_json_values::specs::Objects::member_at))]
fn types_field(alloc: Global, value: &JsonValue<'_>, key: Key) -> Result<List<TypeRef>, ReadError>
    ensures { Gives result (field_at key (list_at (λ _. type_at)) (view value.now)) }
{
    let found = member(alloc, value, key)?;
    Ok(at_key(types_of(alloc, found), key)?)
}

/// `null`, or a type.
fn optional_type_of(alloc: Global, value: &JsonValue<'_>) -> Result<Option<TypeRef>, ReadError>
    ensures { Gives result (optional type_at (view value.now)) }
{
    if value.is_null() {
        return Ok(None);
    }
    let found = type_of(alloc, value)?;
    Ok(Some(found))
}

/// The type at a key, or `null`.
#[tactic(auto, unfolding(lalrpop_json_values::specs::Objects::field_at, lalrpop_json_values::specs::Objects::member_at))]
pub fn type_field(
    alloc: Global,
    value: &JsonValue<'_>,
    key: Key,
) -> Result<Option<TypeRef>, ReadError>
    ensures { Gives result (field_at key (optional type_at) (view value.now)) }
{
    let found = member(alloc, value, key)?;
    Ok(at_key(optional_type_of(alloc, found), key)?)
}
