//! How the alternatives of a rule are read from JSON values.

ghost use Rattle.std.specs.Prelude.{◌≡◌};
ghost use Rattle.lalrpop_json_document.specs.DocumentViews.{view};
ghost use Rattle.lalrpop_json_values.specs.Gives.{Gives, within};
ghost use Rattle.lalrpop_json_values.specs.Lists.{list_at};
ghost use Rattle.lalrpop_json_values.specs.Objects.{field_at};
ghost use Rattle.lalrpop_json_values.specs.Scalars.{optional};
ghost use Rattle.lalrpop_json_items.specs.Alternatives.{action_and_attributes_at, action_at, alternative_at, alternatives_at, condition_and_symbols_at, condition_at, fallible_at, place_at, test_at, user_at};
ghost use Rattle.lalrpop_json_values.specs.declared.fault.Step.TheVariants as step;

use lalrpop_grammar::types::Attribute;
use lalrpop_grammar::{ActionKind, Alternative, Condition, ConditionOp, Origin};
use lalrpop_grammar_symbols::{Atom, List, NonterminalString, Span, Symbol};
use lalrpop_json_document::JsonValue;
use lalrpop_json_symbols::{attributes_field, symbols_field};
use lalrpop_json_values::{
    FaultKind, Form, Key, ReadError, Word, at_index, at_key, form_by_key, here, keys, member,
    name_field, span_field, text_field,
};
use std::alloc::Global;

#[tactic(auto, unfolding(crate::specs::Alternatives::user_at))]
fn user_of(alloc: Global, value: &JsonValue<'_>) -> Result<ActionKind, ReadError>
    ensures { Gives result (user_at (view value.now)) }
{
    keys(alloc, value, &[Key::User])?;
    let text = text_field(alloc, value, Key::User)?;
    Ok(ActionKind::User(text))
}

#[tactic(auto, unfolding(crate::specs::Alternatives::fallible_at))]
fn fallible_of(alloc: Global, value: &JsonValue<'_>) -> Result<ActionKind, ReadError>
    ensures { Gives result (fallible_at (view value.now)) }
{
    keys(alloc, value, &[Key::Fallible])?;
    let text = text_field(alloc, value, Key::Fallible)?;
    Ok(ActionKind::Fallible(text))
}

/// What an alternative does.
#[tactic(auto, unfolding(crate::specs::Alternatives::action_at))]
fn action_of(alloc: Global, value: &JsonValue<'_>) -> Result<Option<ActionKind>, ReadError>
    ensures { Gives result (action_at (view value.now)) }
{
    if value.is_null() {
        return Ok(None);
    }
    let rows = [(Key::Fallible, Form::Fallible), (Key::User, Form::User)];
    match form_by_key(&rows, value) {
        Some(Form::Fallible) => {
            let action = fallible_of(alloc, value)?;
            Ok(Some(action))
        }
        Some(Form::User) => {
            let action = user_of(alloc, value)?;
            Ok(Some(action))
        }
        _ => Err(here(alloc, FaultKind::WrongShape)),
    }
}

/// What an alternative does, at a key.
#[tactic(auto, unfolding(lalrpop_json_values::specs::Objects::field_at, lalrpop_json_values::specs::Objects::member_at))]
fn action_field(
    alloc: Global,
    value: &JsonValue<'_>,
    key: Key,
) -> Result<Option<ActionKind>, ReadError>
    ensures { Gives result (field_at key action_at (view value.now)) }
{
    let found = member(alloc, value, key)?;
    Ok(at_key(action_of(alloc, found), key)?)
}

/// How a condition compares.
#[tactic(auto, unfolding(crate::specs::Alternatives::test_at))]
fn test_of(alloc: Global, value: &JsonValue<'_>) -> Result<ConditionOp, ReadError>
    ensures { Gives result (test_at (view value.now)) }
{
    let Some(text) = value.as_str() else {
        return Err(here(alloc, FaultKind::WrongShape));
    };
    if text == Word::Equals.text() {
        Ok(ConditionOp::Equals)
    } else if text == Word::Differs.text() {
        Ok(ConditionOp::NotEquals)
    } else if text == Word::Matches.text() {
        Ok(ConditionOp::Match)
    } else if text == Word::MatchesNot.text() {
        Ok(ConditionOp::NotMatch)
    } else {
        Err(here(alloc, FaultKind::WrongShape))
    }
}

/// How a condition compares, at a key.
#[tactic(auto, unfolding(lalrpop_json_values::specs::Objects::field_at, lalrpop_json_values::specs::Objects::member_at))]
fn test_field(alloc: Global, value: &JsonValue<'_>, key: Key) -> Result<ConditionOp, ReadError>
    ensures { Gives result (field_at key test_at (view value.now)) }
{
    let found = member(alloc, value, key)?;
    Ok(at_key(test_of(alloc, found), key)?)
}

/// When an alternative is there.
#[tactic(auto, unfolding(crate::specs::Alternatives::condition_at))]
fn condition_of(alloc: Global, value: &JsonValue<'_>) -> Result<Condition, ReadError>
    ensures { Gives result (condition_at (view value.now)) }
{
    keys(alloc, value, &[Key::Lhs, Key::Op, Key::Rhs, Key::Span])?;
    let lhs = name_field(alloc, value, Key::Lhs)?;
    let op = test_field(alloc, value, Key::Op)?;
    let rhs = text_field(alloc, value, Key::Rhs)?;
    let span = span_field(alloc, value, Key::Span)?;
    Ok(Condition {
        span,
        lhs: NonterminalString(lhs),
        rhs,
        op,
    })
}

/// `null`, or a condition.
fn optional_condition_of(
    alloc: Global,
    value: &JsonValue<'_>,
) -> Result<Option<Condition>, ReadError>
    ensures { Gives result (optional condition_at (view value.now)) }
{
    if value.is_null() {
        return Ok(None);
    }
    let found = condition_of(alloc, value)?;
    Ok(Some(found))
}

/// The condition at a key, or `null`.
#[tactic(auto, unfolding(lalrpop_json_values::specs::Objects::field_at, lalrpop_json_values::specs::Objects::member_at))]
fn condition_field(
    alloc: Global,
    value: &JsonValue<'_>,
    key: Key,
) -> Result<Option<Condition>, ReadError>
    ensures { Gives result (field_at key (optional condition_at) (view value.now)) }
{
    let found = member(alloc, value, key)?;
    Ok(at_key(optional_condition_of(alloc, found), key)?)
}

fn place_of(alloc: Global, index: usize) -> Result<u32, ReadError>
    ensures { Gives result (place_at index) }
{
    if index <= 0xffff_ffff {
        Ok(index as u32)
    } else {
        Err(here(alloc, FaultKind::WrongShape))
    }
}

/// What an alternative does, and its attributes.
#[tactic(auto, unfolding(crate::specs::Alternatives::action_and_attributes_at))]
fn action_and_attributes_of(
    alloc: Global,
    value: &JsonValue<'_>,
) -> Result<(Option<ActionKind>, List<Attribute>), ReadError>
    ensures { Gives result (action_and_attributes_at (view value.now)) }
{
    let action = action_field(alloc, value, Key::Action)?;
    let attributes = attributes_field(alloc, value, Key::Attributes)?;
    Ok((action, attributes))
}

/// When an alternative is there, its symbols and its place in the text.
#[tactic(auto, unfolding(crate::specs::Alternatives::condition_and_symbols_at))]
fn condition_and_symbols_of(
    alloc: Global,
    value: &JsonValue<'_>,
) -> Result<(Option<Condition>, List<Symbol>, Span), ReadError>
    ensures { Gives result (condition_and_symbols_at (view value.now)) }
{
    let condition = condition_field(alloc, value, Key::Condition)?;
    let expr = symbols_field(alloc, value, Key::Expr)?;
    let span = span_field(alloc, value, Key::Span)?;
    Ok((condition, expr, span))
}

/// The alternative at a place of a rule.
#[tactic(auto, unfolding(crate::specs::Alternatives::alternative_at, crate::specs::Alternatives::alternative_at_place, crate::specs::Alternatives::action_and_attributes_at, crate::specs::Alternatives::condition_and_symbols_at))]
fn alternative_of(
    alloc: Global,
    value: &JsonValue<'_>,
    rule: &Atom,
    index: usize,
) -> Result<Alternative, ReadError>
    ensures { Gives result (alternative_at rule.now index (view value.now)) }
{
    let place = place_of(alloc, index)?;
    keys(
        alloc,
        value,
        &[
            Key::Action,
            Key::Attributes,
            Key::Condition,
            Key::Expr,
            Key::Span,
        ],
    )?;
    let rule = NonterminalString(rule.try_clone()?);
    let (action, attributes) = action_and_attributes_of(alloc, value)?;
    let (condition, expr, span) = condition_and_symbols_of(alloc, value)?;
    let origin = Origin::Alternative {
        rule,
        args: List::new(alloc),
        place,
    };
    Ok(Alternative {
        span,
        expr,
        condition,
        action,
        attributes,
        origin,
    })
}

fn alternative_in(
    alloc: Global,
    value: &JsonValue<'_>,
    rule: &Atom,
    index: usize,
) -> Result<Alternative, ReadError>
    ensures { Gives result (within (step.Index index) (alternative_at rule.now index (view value.now))) }
{
    Ok(at_index(alternative_of(alloc, value, rule, index), index)?)
}

/// The alternatives of the rule of that name.
#[tactic(auto, using(lalrpop_json_values::proofs::ListReadingLemmas::lists), unfolding(lalrpop_json_values::specs::Lists::list_at))]
fn alternatives_of(
    alloc: Global,
    value: &JsonValue<'_>,
    rule: &Atom,
) -> Result<List<Alternative>, ReadError>
    ensures { Gives result (alternatives_at rule.now (view value.now)) }
{
    let Some(values) = value.as_array() else {
        return Err(here(alloc, FaultKind::WrongShape));
    };
    let mut alternatives = List::new(alloc);
    for (index, value) in values.iter().enumerate() {
        let alternative = alternative_in(alloc, value, rule, index)?;
        alternatives.push(alternative)?;
    }
    Ok(alternatives)
}

/// The alternatives at a key.
#[tactic(auto, unfolding(lalrpop_json_values::specs::Objects::field_at, lalrpop_json_values::specs::Objects::member_at))]
pub fn alternatives_field(
    alloc: Global,
    value: &JsonValue<'_>,
    key: Key,
    rule: &Atom,
) -> Result<List<Alternative>, ReadError>
    ensures { Gives result (field_at key (alternatives_at rule.now) (view value.now)) }
{
    let found = member(alloc, value, key)?;
    Ok(at_key(alternatives_of(alloc, found, rule), key)?)
}
