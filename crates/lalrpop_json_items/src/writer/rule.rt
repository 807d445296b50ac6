//! Which rules have a spelling, and the JSON value of each.

ghost use Rattle.std.specs.Prelude.{◌≡◌, ◌↔◌, IfOk, IsTrue};
ghost use Rattle.serde_json.specs.View.{members_view, view};
ghost use Rattle.lalrpop_json_values.specs.Spelled.{EachFrom, list_json, members_from};
ghost use Rattle.lalrpop_json_items.specs.Readable.{IsReadableParameter, IsReadableRule};
ghost use Rattle.lalrpop_json_items.specs.Spelling.{first_rule_members, parameter_json, rule_json, visibility_json};

use crate::writer::alternative::{alternatives_value, are_readable_alternatives};
use lalrpop_grammar::{NonterminalData, Visibility};
use lalrpop_grammar_symbols::NonterminalString;
use lalrpop_json_symbols::writer::{
    are_readable_attributes, attributes_value, declaration_value, is_readable_declaration,
    is_readable_span, span_value,
};
use lalrpop_json_values::{JsonObject, Key, is_name};
use serde_json::Value;
use std::alloc::{AllocError, Global};

/// Whether each of the parameters is a name.
#[tactic(auto, using(lalrpop_json_symbols::proofs::EachLemmas::each))]
fn are_readable_parameters(parameters: &[NonterminalString]) -> bool
    ensures { IsTrue result ↔ EachFrom (λ _. IsReadableParameter) 0 parameters.now }
{
    for parameter in parameters {
        if !is_name(parameter.0.as_str()) {
            return false;
        }
    }
    true
}

/// Whether the rule has a spelling.
#[tactic(auto, using(crate::proofs::ItemSpellingLemmas::rules_told))]
pub(crate) fn is_readable_rule(rule: &NonterminalData) -> bool
    ensures { IsTrue result ↔ IsReadableRule rule.now }
{
    let name = rule.name.0.as_str();
    is_name(name)
        && are_readable_attributes(rule.attributes.as_slice())
        && is_readable_span(rule.span)
        && are_readable_parameters(rule.args.as_slice())
        && is_readable_declaration(&rule.type_decl)
        && are_readable_alternatives(name, rule.alternatives.as_slice())
}

#[tactic(auto, unfolding(lalrpop_json_values::specs::Key::key_text, lalrpop_json_values::specs::Word::word_text))]
fn visibility_value(alloc: Global, visibility: &Visibility) -> Result<Value, AllocError>
    ensures { IfOk result (λ value. view value ≡ visibility_json visibility.now) }
{
    match visibility {
        Visibility::Pub => Value::try_from_str(alloc, "pub"),
        Visibility::Priv => Value::try_from_str(alloc, "priv"),
        Visibility::PubIn(path) => JsonObject::of_text(alloc, Key::PubIn, path.as_str()),
    }
}

#[tactic(auto, using(lalrpop_json_symbols::proofs::ListLemmas::listed))]
fn parameters_value(alloc: Global, parameters: &[NonterminalString]) -> Result<Value, AllocError>
    ensures { IfOk result (λ value. view value ≡ list_json parameter_json parameters.now) }
{
    let mut values = Vec::new(alloc);
    for parameter in parameters {
        values.push(Value::try_from_str(alloc, parameter.0.as_str())?)?;
    }
    Ok(Value::Array(values))
}

/// The first members of a rule's object, up to its name.
#[tactic(auto, unfolding(lalrpop_json_values::specs::Key::key_text, lalrpop_json_values::specs::Word::word_text))]
fn first_members(alloc: Global, rule: &NonterminalData) -> Result<JsonObject, AllocError>
    ensures { IfOk result (λ object. members_view object.members.entries ≡ members_from (first_rule_members rule.now)) }
{
    let mut object = JsonObject::new(alloc);
    object.put(
        Key::Alternatives,
        alternatives_value(alloc, rule.alternatives.as_slice())?,
    )?;
    object.put(Key::Args, parameters_value(alloc, rule.args.as_slice())?)?;
    object.put(
        Key::Attributes,
        attributes_value(alloc, rule.attributes.as_slice())?,
    )?;
    object.put_text(Key::Kind, "rule")?;
    object.put_text(Key::Name, rule.name.0.as_str())?;
    Ok(object)
}

/// The rule as an object. That of a rule without a spelling isn't read as this rule.
#[tactic(auto, unfolding(lalrpop_json_values::specs::Key::key_text, lalrpop_json_values::specs::Word::word_text))]
pub(crate) fn rule_value(alloc: Global, rule: &NonterminalData) -> Result<Value, AllocError>
    ensures { IfOk result (λ value. view value ≡ rule_json rule.now) }
{
    let mut object = first_members(alloc, rule)?;
    object.put(Key::Span, span_value(alloc, rule.span)?)?;
    object.put(
        Key::DeclaredType,
        declaration_value(alloc, &rule.type_decl)?,
    )?;
    object.put(Key::Visibility, visibility_value(alloc, &rule.visibility)?)?;
    Ok(object.into_value())
}
