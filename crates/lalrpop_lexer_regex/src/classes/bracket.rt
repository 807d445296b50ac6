//! Classes in brackets, and the classes inside them.

ghost use Rattle.std.specs.Prelude.{◌≡◌, ◌+◌, ◌<◌, ◌≤◌, [], true, length, IfOk};
ghost use Rattle.lalrpop_lexer_regex.specs.Outcome.{GivesReading};
ghost use Rattle.lalrpop_lexer_regex.specs.Properties.{ranges_read};
ghost use Rattle.lalrpop_lexer_regex.specs.Classes.{class_item_at, class_items_from, class_at};

use crate::classes::class_item::{
    begins_with, character_or_range, escaped_item, is_operator, posix_item,
};
use crate::classes::fault::{PatternError, PatternFaultKind};
use crate::classes::posix::{caret, posix};
use crate::classes::set_escape::finished_set;
use crate::classes::text::{first, syntax};
use lalrpop_lexer_pattern::{CharacterSet, CharacterSetBuilder};
use std::alloc::Global;

/// The set of a class whose opening bracket is read, and the text after it.
///
/// `left` is how many characters are left at the bracket, and `depth` how many classes may still be opened, this one of
/// them. Where `fold` says so, all that share a simple case folding with a member are in the set.
///
/// # Errors
///
/// `Unsupported` at the bracket of a class that stands too deep and at an operator of sets, `BadRange` at the first end
/// of a range whose ends fall, `UnknownName` at the bracket of a POSIX class without a set, the faults of
/// [`crate::classes::escaped_set`] and [`crate::classes::escaped_character`] behind a backslash, and `Syntax` where reading stopped for all
/// else that is no class; `Memory`.
#[cycle(class)]
pub fn class(
    alloc: Global,
    depth: u32,
    fold: bool,
    left: usize,
    text: &[char],
) -> Result<(CharacterSet, &[char]), PatternError>
    ensures gives { GivesReading ranges_read result (class_at depth fold left text.now) }
    ensures shorter { IfOk result (λ x. length x.1.now < length text.now) }
{
    if depth == 0 {
        return Err(PatternError::Fault(PatternFaultKind::Unsupported, left));
    }
    let (negated, inner) = caret(text);
    let (items, rest) = items(alloc, depth - 1, fold, inner)?;
    let set = finished_set(items, fold, negated)?;
    Ok((set, rest))
}

/// The items of a class up to its closing bracket, and the text after that.
#[cycle(class)]
fn items(
    alloc: Global,
    depth: u32,
    fold: bool,
    text: &[char],
) -> Result<(CharacterSet, &[char]), PatternError>
    ensures gives { GivesReading ranges_read result (class_items_from (class_item_at depth fold) (length text.now + 1) true [] text.now) }
    ensures shorter { IfOk result (λ x. length x.1.now < length text.now) }
{
    let mut items = CharacterSetBuilder::new(alloc);
    let mut is_first = true;
    let mut rest = text;
    while let Some((character, more)) = first(rest) {
        if character == ']' && !is_first {
            let set = items.build()?;
            return Ok((set, more));
        }
        let (item, following) = item(alloc, depth, fold, is_first, rest)?;
        items = items.with(&item)?;
        is_first = false;
        rest = following;
    }
    Err(syntax(rest))
}

/// One item of a class, and the text after it.
#[cycle(class)]
#[tactic(auto, unfolding(crate::specs::Classes::class_item_with))]
fn item(
    alloc: Global,
    depth: u32,
    fold: bool,
    is_first: bool,
    text: &[char],
) -> Result<(CharacterSet, &[char]), PatternError>
    ensures gives { GivesReading ranges_read result (class_item_at depth fold is_first text.now) }
    ensures shorter { IfOk result (λ x. length x.1.now < length text.now) }
{
    let Some((character, rest)) = first(text) else {
        return Err(syntax(text));
    };
    if is_operator(character, rest) {
        return Err(PatternError::Fault(PatternFaultKind::Unsupported, text.len()));
    }
    if character == '[' {
        return match posix(rest) {
            Some(((negated, name), after)) => {
                let set = posix_item(alloc, text.len(), fold, negated, name)?;
                Ok((set, after))
            }
            None => {
                let set = class(alloc, depth, fold, text.len(), rest)?;
                Ok(set)
            }
        };
    }
    if character == '\\' {
        let set = escaped_item(alloc, text.len(), fold, rest)?;
        return Ok(set);
    }
    if character == '-' && !is_first && !begins_with(']', rest) {
        return Err(syntax(text));
    }
    let set = character_or_range(alloc, text.len(), u32::from(character), rest)?;
    Ok(set)
}
