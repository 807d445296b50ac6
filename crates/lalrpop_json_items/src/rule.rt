//! How the rules of a grammar are read from JSON values.

ghost use Rattle.std.specs.Prelude.{◌≡◌};
ghost use Rattle.lalrpop_json_document.specs.DocumentViews.{view};
ghost use Rattle.lalrpop_json_values.specs.Gives.{Gives, within};
ghost use Rattle.lalrpop_json_values.specs.Lists.{list_at};
ghost use Rattle.lalrpop_json_values.specs.Objects.{field_at};
ghost use Rattle.lalrpop_json_items.specs.Alternatives.{alternatives_at};
ghost use Rattle.lalrpop_json_items.specs.Rules.{declaration_at, name_and_span_at, name_in, parameter_at, pub_in_at, rule_at, visibility_at, visibility_of};
ghost use Rattle.lalrpop_json_values.specs.declared.fault.Step.TheVariants as step;
ghost use Rattle.lalrpop_json_values.specs.declared.key.Key.TheVariants as key;

use crate::alternative::alternatives_field;
use lalrpop_grammar::types::TypeRef;
use lalrpop_grammar::{Alternative, NonterminalData, Visibility};
use lalrpop_grammar_symbols::{Atom, List, NonterminalString, Span};
use lalrpop_json_document::JsonValue;
use lalrpop_json_symbols::{attributes_field, type_field};
use lalrpop_json_values::{
    FaultKind, Form, Key, ReadError, Word, at_index, at_key, form_by_key, here, keys, member,
    name_field, name_of, span_field, text_field, word_field,
};
use std::alloc::Global;

fn word_visibility(alloc: Global, text: &str) -> Result<Visibility, ReadError>
    ensures { Gives result (visibility_of text.now) }
{
    if text == Word::Pub.text() {
        Ok(Visibility::Pub)
    } else if text == Word::Priv.text() {
        Ok(Visibility::Priv)
    } else {
        Err(here(alloc, FaultKind::WrongShape))
    }
}

#[tactic(auto, unfolding(crate::specs::Rules::pub_in_at))]
fn pub_in_of(alloc: Global, value: &JsonValue<'_>) -> Result<Visibility, ReadError>
    ensures { Gives result (pub_in_at (view value.now)) }
{
    keys(alloc, value, &[Key::PubIn])?;
    let path = text_field(alloc, value, Key::PubIn)?;
    Ok(Visibility::PubIn(path))
}

/// Who may use a rule.
#[tactic(auto, unfolding(crate::specs::Rules::visibility_at))]
fn visibility_in(alloc: Global, value: &JsonValue<'_>) -> Result<Visibility, ReadError>
    ensures { Gives result (visibility_at (view value.now)) }
{
    let Some(text) = value.as_str() else {
        let rows = [(Key::PubIn, Form::PubIn)];
        return match form_by_key(&rows, value) {
            Some(Form::PubIn) => pub_in_of(alloc, value),
            _ => Err(here(alloc, FaultKind::WrongShape)),
        };
    };
    word_visibility(alloc, text)
}

/// Who may use a rule, at a key.
#[tactic(auto, unfolding(lalrpop_json_values::specs::Objects::field_at, lalrpop_json_values::specs::Objects::member_at))]
fn visibility_field(alloc: Global, value: &JsonValue<'_>, key: Key) -> Result<Visibility, ReadError>
    ensures { Gives result (field_at key visibility_at (view value.now)) }
{
    let found = member(alloc, value, key)?;
    Ok(at_key(visibility_in(alloc, found), key)?)
}

/// A parameter of a macro.
#[tactic(auto, unfolding(crate::specs::Rules::parameter_at))]
fn parameter_of(alloc: Global, value: &JsonValue<'_>) -> Result<NonterminalString, ReadError>
    ensures { Gives result (parameter_at (view value.now)) }
{
    let name = name_of(alloc, value)?;
    Ok(NonterminalString(name))
}

fn parameter_in(
    alloc: Global,
    value: &JsonValue<'_>,
    index: usize,
) -> Result<NonterminalString, ReadError>
    ensures { Gives result (within (step.Index index) (parameter_at (view value.now))) }
{
    Ok(at_index(parameter_of(alloc, value), index)?)
}

/// A list of parameters.
#[tactic(auto, using(lalrpop_json_values::proofs::ListReadingLemmas::lists), unfolding(lalrpop_json_values::specs::Lists::list_at))]
fn parameters_of(alloc: Global, value: &JsonValue<'_>) -> Result<List<NonterminalString>, ReadError>
    ensures { Gives result (list_at (λ _. parameter_at) (view value.now)) }
{
    let Some(values) = value.as_array() else {
        return Err(here(alloc, FaultKind::WrongShape));
    };
    let mut found = List::new(alloc);
    for (index, value) in values.iter().enumerate() {
        let parameter = parameter_in(alloc, value, index)?;
        found.push(parameter)?;
    }
    Ok(found)
}

/// The parameters at a key.
#[tactic(auto, unfolding(lalrpop_json_values::specs::Objects::field_at, lalrpop_json_values::specs::Objects::member_at))]
fn parameters_field(
    alloc: Global,
    value: &JsonValue<'_>,
    key: Key,
) -> Result<List<NonterminalString>, ReadError>
    ensures { Gives result (field_at key (list_at (λ _. parameter_at)) (view value.now)) }
{
    let found = member(alloc, value, key)?;
    Ok(at_key(parameters_of(alloc, found), key)?)
}

/// The name that stands in a rule, to which its alternatives belong.
#[tactic(auto, unfolding(crate::specs::Rules::name_in))]
fn name_in<'t>(value: &JsonValue<'t>) -> &'t str
    ensures { result.now ≡ name_in (view value.now) }
{
    let Some(name) = value.get(Key::Name.text()) else {
        return "";
    };
    match name.as_str() {
        Some(text) => text,
        None => "",
    }
}

/// The alternatives of a rule, which belong to the name that stands in it.
fn own_alternatives(alloc: Global, value: &JsonValue<'_>) -> Result<List<Alternative>, ReadError>
    ensures { let d = view value.now in Gives result (field_at key.Alternatives (alternatives_at (name_in d)) d) }
{
    let belongs_to = Atom::new(alloc, name_in(value))?;
    alternatives_field(alloc, value, Key::Alternatives, &belongs_to)
}

/// The name of a rule and its place in the text.
#[tactic(auto, unfolding(crate::specs::Rules::name_and_span_at))]
fn name_and_span_of(alloc: Global, value: &JsonValue<'_>) -> Result<(Atom, Span), ReadError>
    ensures { Gives result (name_and_span_at (view value.now)) }
{
    word_field(alloc, value, Key::Kind, Word::Rule)?;
    let name = name_field(alloc, value, Key::Name)?;
    let span = span_field(alloc, value, Key::Span)?;
    Ok((name, span))
}

/// The declared type of a rule, and who may use the rule.
#[tactic(auto, unfolding(crate::specs::Rules::declaration_at))]
fn declaration_of(
    alloc: Global,
    value: &JsonValue<'_>,
) -> Result<(Option<TypeRef>, Visibility), ReadError>
    ensures { Gives result (declaration_at (view value.now)) }
{
    let type_decl = type_field(alloc, value, Key::DeclaredType)?;
    let visibility = visibility_field(alloc, value, Key::Visibility)?;
    Ok((type_decl, visibility))
}

/// A rule.
#[tactic(auto, unfolding(crate::specs::Rules::rule_at, crate::specs::Rules::name_and_span_at, crate::specs::Rules::declaration_at))]
pub fn rule_of(alloc: Global, value: &JsonValue<'_>) -> Result<NonterminalData, ReadError>
    ensures { Gives result (rule_at (view value.now)) }
{
    keys(
        alloc,
        value,
        &[
            Key::Alternatives,
            Key::Args,
            Key::Attributes,
            Key::Kind,
            Key::Name,
            Key::Span,
            Key::DeclaredType,
            Key::Visibility,
        ],
    )?;
    let alternatives = own_alternatives(alloc, value)?;
    let args = parameters_field(alloc, value, Key::Args)?;
    let attributes = attributes_field(alloc, value, Key::Attributes)?;
    let (name, span) = name_and_span_of(alloc, value)?;
    let (type_decl, visibility) = declaration_of(alloc, value)?;
    Ok(NonterminalData {
        visibility,
        name: NonterminalString(name),
        attributes,
        span,
        args,
        type_decl,
        alternatives,
    })
}
