//! The items of a class in brackets: characters, ranges, escapes and POSIX classes.

ghost use Rattle.std.specs.Prelude.{◌≡◌, ◌<◌, ◌≤◌, length, IfOk, IfSome, Ok, option_map};
ghost use Rattle.lalrpop_lexer_regex.specs.Outcome.{GivesReading, value_read};
ghost use Rattle.lalrpop_lexer_regex.specs.Properties.{ranges_read};
ghost use Rattle.lalrpop_lexer_regex.specs.ClassItems.{begins_with, begins_range, range_set, range_end_at, character_or_range_at, escaped_item_at, posix_item, is_operator};

use crate::classes::escape::escaped_character;
use crate::classes::fault::{PatternError, PatternFaultKind};
use crate::classes::posix::posix_ranges;
use crate::classes::set_escape::{escaped_set, finished_set, is_set_letter};
use crate::classes::text::{after, first, syntax};
use lalrpop_lexer_pattern::{CharacterSet, Range};
use std::alloc::Global;

/// Whether the text begins with the character.
pub(crate) fn begins_with(mark: char, text: &[char]) -> bool
    ensures { result ≡ begins_with mark text.now }
{
    match first(text) {
        Some((character, _)) => character == mark,
        None => false,
    }
}

/// Whether an operator of sets begins with the character and the text after it: `&&`, `--` or `~~`.
pub(crate) fn is_operator(character: char, text: &[char]) -> bool
    ensures { result ≡ is_operator character text.now }
{
    (character == '&' || character == '-' || character == '~') && begins_with(character, text)
}

/// The set of the characters from one to another, both included, as numbers. Fails for want of memory alone.
#[tactic(auto, unfolding(crate::specs::ClassItems::range_set))]
pub fn range_set(alloc: Global, start: u32, end: u32) -> Result<CharacterSet, PatternError>
    ensures { GivesReading (λ set. set.ranges.items) result (Ok (range_set start end)) }
{
    let mut ranges = Vec::new(alloc);
    ranges.push(Range { start, end })?;
    Ok(CharacterSet::from_ranges(ranges)?)
}

/// The text after the dash of a range, where one goes on: a dash in front of a closing bracket or another dash is none.
#[tactic(auto, unfolding(crate::specs::ClassItems::begins_range))]
fn range_mark(text: &[char]) -> Option<&[char]>
    ensures value { option_map (λ rest. rest.now) result ≡ begins_range text.now }
    ensures shorter { IfSome result (λ rest. length rest.now < length text.now) }
{
    match after('-', text) {
        None => None,
        Some(rest) => {
            if begins_with(']', rest) || begins_with('-', rest) {
                None
            } else {
                Some(rest)
            }
        }
    }
}

/// The character that ends a range, and the text after it.
#[tactic(auto, unfolding(crate::specs::ClassItems::range_end_at))]
fn range_end(text: &[char]) -> Result<(u32, &[char]), PatternError>
    ensures gives { GivesReading value_read result (range_end_at text.now) }
    ensures shorter { IfOk result (λ x. length x.1.now < length text.now) }
{
    let Some((character, rest)) = first(text) else {
        return Err(syntax(text));
    };
    if character == '\\' {
        let end = escaped_character(text.len(), rest)?;
        return Ok(end);
    }
    if character == '[' || character == ']' || character == '-' {
        return Err(syntax(text));
    }
    Ok((u32::from(character), rest))
}

/// The set of one character of a class, or of the range that it begins, and the text after that.
///
/// `left` is how much text is left where the character stands.
#[tactic(auto, unfolding(crate::specs::ClassItems::character_or_range_at))]
pub(crate) fn character_or_range(
    alloc: Global,
    left: usize,
    start: u32,
    text: &[char],
) -> Result<(CharacterSet, &[char]), PatternError>
    ensures gives { GivesReading ranges_read result (character_or_range_at left start text.now) }
    ensures shorter { IfOk result (λ x. length x.1.now ≤ length text.now) }
{
    match range_mark(text) {
        None => {
            let set = range_set(alloc, start, start)?;
            Ok((set, text))
        }
        Some(mark) => {
            let (end, rest) = range_end(mark)?;
            if end < start {
                return Err(PatternError::Fault(PatternFaultKind::BadRange, left));
            }
            let set = range_set(alloc, start, end)?;
            Ok((set, rest))
        }
    }
}

/// The set of a class item after a backslash, and the text after it; `left` is how much text is left at the backslash.
#[tactic(auto, unfolding(crate::specs::ClassItems::escaped_item_at))]
pub(crate) fn escaped_item(
    alloc: Global,
    left: usize,
    fold: bool,
    text: &[char],
) -> Result<(CharacterSet, &[char]), PatternError>
    ensures gives { GivesReading ranges_read result (escaped_item_at left fold text.now) }
    ensures shorter { IfOk result (λ x. length x.1.now < length text.now) }
{
    let Some((letter, rest)) = first(text) else {
        return Err(syntax(text));
    };
    if is_set_letter(letter) {
        let set = escaped_set(alloc, left, fold, letter, rest)?;
        return Ok(set);
    }
    let (start, rest) = escaped_character(left, text)?;
    let item = character_or_range(alloc, left, start, rest)?;
    Ok(item)
}

/// The set of a POSIX class; `left` is told of a name that is none.
#[tactic(auto, unfolding(crate::specs::ClassItems::posix_item))]
pub(crate) fn posix_item(
    alloc: Global,
    left: usize,
    fold: bool,
    negated: bool,
    name: &[char],
) -> Result<CharacterSet, PatternError>
    ensures { GivesReading (λ set. set.ranges.items) result (posix_item left fold negated name.now) }
{
    match posix_ranges(name) {
        None => Err(PatternError::Fault(PatternFaultKind::UnknownName, left)),
        Some(ranges) => {
            let set = CharacterSet::from_ranges(Vec::from_slice(alloc, ranges)?)?;
            let set = finished_set(set, fold, negated)?;
            Ok(set)
        }
    }
}
