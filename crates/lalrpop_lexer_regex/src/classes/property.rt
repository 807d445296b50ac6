//! The sets of characters of Unicode properties, by the names after `\p`.

ghost use Rattle.std.specs.Prelude.{◌≡◌, ◌<◌, ◌≤◌, ◌+◌, length, take, drop, position, ◌==◌, IfOk, MatchOption, IfSome, option_map};
ghost use Rattle.lalrpop_lexer_regex.specs.Outcome.{GivesReading, value_read};
ghost use Rattle.lalrpop_lexer_regex.specs.Properties.{split_at_first, is_known_key, property_at, keyed_set, set_by_name, ranges_read};

use crate::classes::fault::{PatternError, PatternFaultKind};
use crate::classes::text::{first, syntax};
use lalrpop_lexer_pattern::CharacterSet;
use std::alloc::Global;
use unicode::sets::{by_name, normalize};

/// The index of the first such character.
fn index_of(mark: char, text: &[char]) -> Option<usize>
    ensures value { result ≡ position (λ c. c == mark) text.now }
    ensures within { IfSome result (λ at. at < length text.now) }
{
    text.iter().position(|character| *character == mark)
}

/// The text before and after the first such character.
fn split_at_first(mark: char, text: &[char]) -> Option<(&[char], &[char])>
    ensures value { option_map (λ x. (x.0.now, x.1.now)) result ≡ split_at_first mark text.now }
    ensures shorter { IfSome result (λ x. length x.1.now < length text.now) }
{
    match index_of(mark, text) {
        None => None,
        Some(at) => {
            let (before, _) = text.split_at(at);
            let (_, after) = text.split_at(at + 1);
            Some((before, after))
        }
    }
}

/// Whether a key before an equals sign is one that is left out.
fn is_known_key(key: &[char]) -> bool
    ensures { result ≡ is_known_key key.now }
{
    key.len() == 2 && (key[0] == 'g' || key[0] == 's') && key[1] == 'c'
}

/// The set that a name stands for; `left` is told of a name without one.
#[tactic(auto, unfolding(crate::specs::Properties::set_by_name))]
fn set_by_name(alloc: Global, left: usize, name: &[char]) -> Result<CharacterSet, PatternError>
    ensures { GivesReading (λ set. set.ranges.items) result (set_by_name left name.now) }
{
    let name = normalize(alloc, name)?;
    match by_name(&name) {
        Ok(property) => Ok(CharacterSet::with_property(alloc, property)?),
        Err(_) => Err(PatternError::Fault(PatternFaultKind::UnknownName, left)),
    }
}

/// The set of a property's name, perhaps with a key; `left` is told of a name that isn't read.
#[tactic(auto, unfolding(crate::specs::Properties::keyed_set))]
fn keyed_set(alloc: Global, left: usize, name: &[char]) -> Result<CharacterSet, PatternError>
    ensures { GivesReading (λ set. set.ranges.items) result (keyed_set left name.now) }
{
    match split_at_first('=', name) {
        None => set_by_name(alloc, left, name),
        Some((key, value)) => {
            if is_known_key(key) {
                set_by_name(alloc, left, value)
            } else {
                Err(PatternError::Fault(PatternFaultKind::Unsupported, left))
            }
        }
    }
}

/// The set after `\p`, and the text after it; `left` is how much text is left at the backslash.
#[tactic(auto, unfolding(crate::specs::Properties::property_at))]
pub(crate) fn property(
    alloc: Global,
    left: usize,
    text: &[char],
) -> Result<(CharacterSet, &[char]), PatternError>
    ensures gives { GivesReading ranges_read result (property_at left text.now) }
    ensures shorter { IfOk result (λ x. length x.1.now < length text.now) }
{
    let Some((character, rest)) = first(text) else {
        return Err(syntax(text));
    };
    if character == '{' {
        let Some((name, after)) = split_at_first('}', rest) else {
            return Err(PatternError::Fault(PatternFaultKind::Syntax, 0));
        };
        let set = keyed_set(alloc, left, name)?;
        return Ok((set, after));
    }
    if !character.is_ascii_alphabetic() {
        return Err(syntax(text));
    }
    let set = keyed_set(alloc, left, text.split_at(1).0)?;
    Ok((set, rest))
}
