//! The members of an object, and the faults that are told at it.

ghost use Rattle.std.specs.Prelude.{◌≡◌, [], option_map, IsErrAnd, IfOk, IfErr};
ghost use Rattle.lalrpop_json_document.specs.DocumentViews.{members_view, view};
ghost use Rattle.lalrpop_json_values.specs.Gives.{Gives, GivesBy, IsWithin};
ghost use Rattle.lalrpop_json_values.specs.Objects.{are_named, first_missing, first_unknown, is_listed, keys_at, member_at, keys_fault, names};
ghost use Rattle.lalrpop_json_values.specs.declared.fault.Step.TheVariants as step;
ghost use Rattle.lalrpop_json_values.specs.declared.fault.ReadError.TheVariants as errors;

use crate::fault::{FaultKind, ReadError, Step};
use crate::key::Key;
use lalrpop_grammar_symbols::{Atom, List};
use lalrpop_json_document::{JsonValue, Members};
use std::alloc::{AllocError, Global};

/// A fault of the value itself.
pub fn here(alloc: Global, kind: FaultKind) -> ReadError
    ensures { result ≡ errors.Shape [] kind }
{
    ReadError::Shape {
        path: List::new(alloc),
        kind,
    }
}

/// The error, for a value one step further out.
pub fn outside(error: ReadError, step: Step) -> ReadError
    ensures { IsWithin step error result }
{
    match error {
        ReadError::Memory => ReadError::Memory,
        ReadError::Shape { mut path, kind } => match path.push_front(step) {
            Ok(()) => ReadError::Shape { path, kind },
            Err(_) => ReadError::Memory,
        },
    }
}

/// Whether the members are named so, in this order.
fn are_named(members: &Members<'_>, wanted: &[Key]) -> bool
    ensures { result ≡ are_named wanted.now (names (members_view members.now.items)) }
{
    let mut rest = wanted;
    for (name, _) in members {
        let Some((key, more)) = rest.split_first() else {
            return false;
        };
        if key.text() != *name {
            return false;
        }
        rest = more;
    }
    rest.is_empty()
}

fn missing(value: &JsonValue<'_>, wanted: &[Key]) -> Option<Key>
    ensures { result ≡ first_missing wanted.now (view value.now) }
{
    for key in wanted {
        if value.get(key.text()).is_none() {
            return Some(*key);
        }
    }
    None
}

fn is_listed(wanted: &[Key], name: &str) -> bool
    ensures { result ≡ is_listed wanted.now name.now }
{
    for key in wanted {
        if key.text() == name {
            return true;
        }
    }
    false
}

fn unknown<'t>(members: &Members<'t>, wanted: &[Key]) -> Option<&'t str>
    ensures { option_map (λ k. k.now) result
        ≡ first_unknown wanted.now (names (members_view members.now.items)) }
{
    for (name, _) in members {
        if !is_listed(wanted, name) {
            return Some(*name);
        }
    }
    None
}

/// What is wrong with the keys of an object that aren't the wanted ones.
fn wrong_keys(
    alloc: Global,
    value: &JsonValue<'_>,
    members: &Members<'_>,
    wanted: &[Key],
) -> Result<FaultKind, AllocError>
    ensures { IfOk result (λ kind. kind ≡ keys_fault (first_missing wanted.now (view value.now))
        (first_unknown wanted.now (names (members_view members.now.items)))) }
{
    if let Some(key) = missing(value, wanted) {
        return Ok(FaultKind::MissingKey(key));
    }
    match unknown(members, wanted) {
        Some(name) => Ok(FaultKind::UnknownKey(Atom::new(alloc, name)?)),
        None => Ok(FaultKind::WrongShape),
    }
}

/// That the value is an object with these keys and no others. The keys are in byte order.
#[tactic(auto, unfolding(crate::specs::Objects::keys_at))]
pub fn keys(alloc: Global, value: &JsonValue<'_>, wanted: &[Key]) -> Result<(), ReadError>
    ensures { Gives result (keys_at wanted.now (view value.now)) }
{
    let Some(members) = value.as_object() else {
        return Err(here(alloc, FaultKind::WrongShape));
    };
    if are_named(members, wanted) {
        return Ok(());
    }
    let kind = wrong_keys(alloc, value, members, wanted)?;
    Err(here(alloc, kind))
}

/// The value at a key.
#[tactic(auto, unfolding(crate::specs::Objects::member_at))]
pub fn member<'v, 't>(
    alloc: Global,
    value: &'v JsonValue<'t>,
    key: Key,
) -> Result<&'v JsonValue<'t>, ReadError>
    ensures { GivesBy (λ v. view v.now) result (member_at key (view value.now)) }
{
    match value.get(key.text()) {
        Some(found) => Ok(found),
        None => Err(here(alloc, FaultKind::WrongShape)),
    }
}

/// What was read at a key, with the key in the path of a fault.
pub fn at_key<T: Drop>(read: Result<T, ReadError>, key: Key) -> Result<T, ReadError>
    ensures ok { IfOk read (λ x. result ≡ Ok x) }
    ensures err { IfErr read (λ e. IsErrAnd result (IsWithin (step.Key key) e)) }
{
    match read {
        Ok(found) => Ok(found),
        Err(error) => Err(outside(error, Step::Key(key))),
    }
}

/// What was read at an index of a list, with the index in the path of a fault.
pub fn at_index<T: Drop>(read: Result<T, ReadError>, index: usize) -> Result<T, ReadError>
    ensures ok { IfOk read (λ x. result ≡ Ok x) }
    ensures err { IfErr read (λ e. IsErrAnd result (IsWithin (step.Index index) e)) }
{
    match read {
        Ok(found) => Ok(found),
        Err(error) => Err(outside(error, Step::Index(index))),
    }
}
