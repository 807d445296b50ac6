//! Which alternatives of a rule have a spelling, and the JSON value of each.

ghost use Rattle.std.specs.Prelude.{◌≡◌, ◌↔◌, IfOk, IsTrue, Some};
ghost use Rattle.serde_json.specs.Data.{string};
ghost use Rattle.serde_json.specs.View.{members_view, view};
ghost use Rattle.lalrpop_json_values.specs.Spelled.{EachFrom, IfSome, IsSpan, list_json, members_from, option_json};
ghost use Rattle.lalrpop_json_symbols.specs.Readable.{AreReadableAttributes, AreReadableSymbols};
ghost use Rattle.lalrpop_json_items.specs.Readable.{IsReadableAction, IsReadableAlternative, IsReadableCondition};
ghost use Rattle.lalrpop_json_items.specs.Spelling.{action_json, alternative_json, condition_json, first_alternative_members, test_json};
ghost use Rattle.lalrpop_json_items.specs.Origins.{IsWrittenAt};

use lalrpop_grammar::{ActionKind, Alternative, Condition, ConditionOp, Origin};
use lalrpop_json_symbols::writer::{
    are_readable_attributes, are_readable_symbols, attributes_value, is_readable_span, span_value,
    symbols_value,
};
use lalrpop_json_values::{JsonObject, Key, is_name};
use serde_json::Value;
use std::alloc::{AllocError, Global};

/// Whether what the alternative does is code, and not `@L` or `@R`.
fn is_code(action: &ActionKind) -> bool
    ensures { IsTrue result ↔ IsReadableAction (Some action.now) }
{
    match action {
        ActionKind::User(_) => true,
        ActionKind::Fallible(_) => true,
        ActionKind::Lookahead => false,
        ActionKind::Lookbehind => false,
    }
}

/// Whether what the alternative does has a spelling: nothing is said of it, or it is code.
fn is_readable_action(action: &Option<ActionKind>) -> bool
    ensures { IsTrue result ↔ IsReadableAction action.now }
{
    match action {
        None => true,
        Some(action) => is_code(action),
    }
}

/// Whether the condition, where there is one, has a spelling.
#[tactic(auto, using(crate::proofs::AlternativeSpellingLemmas::conditions_told))]
fn is_readable_condition(condition: &Option<Condition>) -> bool
    ensures { IsTrue result ↔ IfSome IsReadableCondition condition.now }
{
    match condition {
        None => true,
        Some(condition) => { is_name(condition.lhs.0.as_str()) && is_readable_span(condition.span) }
    }
}

/// Whether the origin is that of the written alternative at a place of a rule.
#[tactic(auto, using(crate::proofs::AlternativeSpellingLemmas::origins_told))]
fn is_written_at(origin: &Origin, rule: &str, place: usize) -> bool
    ensures { IsTrue result ↔ IsWrittenAt origin.now rule.now place }
{
    match origin {
        Origin::Alternative {
            rule: name,
            args,
            place: written,
        } => name.0.as_str() == rule && args.is_empty() && *written as usize == place,
        _ => false,
    }
}

/// Whether the symbols of the alternative and its attributes have a spelling.
fn has_readable_symbols(alternative: &Alternative) -> bool
    ensures { let it = alternative.now in IsTrue result
        ↔ (IsSpan it.span × AreReadableSymbols it.expr × AreReadableAttributes it.attributes) }
{
    is_readable_span(alternative.span)
        && are_readable_symbols(alternative.expr.as_slice())
        && are_readable_attributes(alternative.attributes.as_slice())
}

/// Whether the condition of the alternative and its action have a spelling.
fn has_readable_action(alternative: &Alternative) -> bool
    ensures { let it = alternative.now in IsTrue result
        ↔ (IfSome IsReadableCondition it.condition × IsReadableAction it.action) }
{
    is_readable_condition(&alternative.condition) && is_readable_action(&alternative.action)
}

/// Whether the alternative at a place of a rule has a spelling.
fn is_readable_alternative(rule: &str, place: usize, alternative: &Alternative) -> bool
    ensures { IsTrue result ↔ IsReadableAlternative rule.now place alternative.now }
{
    if !is_written_at(&alternative.origin, rule, place) {
        return false;
    }
    has_readable_symbols(alternative) && has_readable_action(alternative)
}

/// Whether each of a rule's alternatives has a spelling.
#[tactic(auto, using(lalrpop_json_symbols::proofs::EachLemmas::each))]
pub(crate) fn are_readable_alternatives(rule: &str, alternatives: &[Alternative]) -> bool
    ensures { IsTrue result ↔ EachFrom (IsReadableAlternative rule.now) 0 alternatives.now }
{
    for (place, alternative) in alternatives.iter().enumerate() {
        if !is_readable_alternative(rule, place, alternative) {
            return false;
        }
    }
    true
}

/// What the alternative does, as an object, or `null` where it has no spelling.
#[tactic(auto, unfolding(lalrpop_json_values::specs::Key::key_text))]
fn action_value(alloc: Global, action: &Option<ActionKind>) -> Result<Value, AllocError>
    ensures { IfOk result (λ value. view value ≡ action_json action.now) }
{
    match action {
        Some(ActionKind::User(code)) => JsonObject::of_text(alloc, Key::User, code.as_str()),
        Some(ActionKind::Fallible(code)) => JsonObject::of_text(
            alloc,
            Key::Fallible,
            code.as_str(),
        ),
        None | Some(ActionKind::Lookahead) | Some(ActionKind::Lookbehind) => Ok(Value::Null),
    }
}

#[tactic(auto, unfolding(lalrpop_json_values::specs::Word::word_text))]
fn sign(op: ConditionOp) -> &'static str
    ensures { string result.now ≡ test_json op }
{
    match op {
        ConditionOp::Equals => "==",
        ConditionOp::NotEquals => "!=",
        ConditionOp::Match => "~~",
        ConditionOp::NotMatch => "!~",
    }
}

/// The condition as an object, or `null`.
#[tactic(auto, unfolding(lalrpop_json_values::specs::Key::key_text))]
fn condition_value(alloc: Global, condition: &Option<Condition>) -> Result<Value, AllocError>
    ensures { IfOk result (λ value. view value ≡ option_json condition_json condition.now) }
{
    let Some(condition) = condition else {
        return Ok(Value::Null);
    };
    let mut object = JsonObject::new(alloc);
    object.put_text(Key::Lhs, condition.lhs.0.as_str())?;
    object.put_text(Key::Op, sign(condition.op))?;
    object.put_text(Key::Rhs, condition.rhs.as_str())?;
    object.put(Key::Span, span_value(alloc, condition.span)?)?;
    Ok(object.into_value())
}

/// The first members of an alternative's object, up to its condition.
#[tactic(auto, unfolding(lalrpop_json_values::specs::Key::key_text))]
fn first_members(alloc: Global, alternative: &Alternative) -> Result<JsonObject, AllocError>
    ensures { IfOk result (λ object. members_view object.members.entries
        ≡ members_from (first_alternative_members alternative.now)) }
{
    let mut object = JsonObject::new(alloc);
    object.put(Key::Action, action_value(alloc, &alternative.action)?)?;
    object.put(
        Key::Attributes,
        attributes_value(alloc, alternative.attributes.as_slice())?,
    )?;
    object.put(
        Key::Condition,
        condition_value(alloc, &alternative.condition)?,
    )?;
    Ok(object)
}

/// The alternative as an object.
#[tactic(auto, unfolding(lalrpop_json_values::specs::Key::key_text))]
fn alternative_value(alloc: Global, alternative: &Alternative) -> Result<Value, AllocError>
    ensures { IfOk result (λ value. view value ≡ alternative_json alternative.now) }
{
    let mut object = first_members(alloc, alternative)?;
    object.put(
        Key::Expr,
        symbols_value(alloc, alternative.expr.as_slice())?,
    )?;
    object.put(Key::Span, span_value(alloc, alternative.span)?)?;
    Ok(object.into_value())
}

/// The alternatives as a list.
#[tactic(auto, using(lalrpop_json_symbols::proofs::ListLemmas::listed))]
pub(crate) fn alternatives_value(
    alloc: Global,
    alternatives: &[Alternative],
) -> Result<Value, AllocError>
    ensures { IfOk result (λ value. view value ≡ list_json alternative_json alternatives.now) }
{
    let mut values = Vec::new(alloc);
    for alternative in alternatives {
        values.push(alternative_value(alloc, alternative)?)?;
    }
    Ok(Value::Array(values))
}
