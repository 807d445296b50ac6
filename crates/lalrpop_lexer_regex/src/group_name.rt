//! The names of groups.

ghost use Rattle.std.specs.Prelude.{◌≡◌, ◌<◌, ◌≤◌, length, IfOk, IfSome, IsTrue, option_map};
ghost use Rattle.std.specs.String.{string_bytes};
ghost use Rattle.lalrpop_lexer_regex.specs.Outcome.{GivesReading};
ghost use Rattle.lalrpop_lexer_regex.specs.GroupNames.{is_name_start, is_name_more, group_name_at, name_mark_at};

use crate::classes::{PatternError, after, first, syntax};
use std::alloc::Global;

/// Whether the name of a group can begin with the character.
fn is_name_start(character: char) -> bool
    ensures value { result ≡ is_name_start character }
    ensures ascii { IsTrue result → character < 128 }
{
    character.is_ascii_alphabetic() || character == '_'
}

/// Whether the name of a group can go on with the character.
fn is_name_more(character: char) -> bool
    ensures value { result ≡ is_name_more character }
    ensures ascii { IsTrue result → character < 128 }
{
    character.is_ascii_alphanumeric() || character == '_'
}

/// A name and the closing angle, and the text after that.
#[tactic(auto, unfolding(crate::specs::GroupNames::group_name_at))]
pub(crate) fn group_name(alloc: Global, text: &[char]) -> Result<(String, &[char]), PatternError>
    ensures gives { GivesReading (λ x. (string_bytes x.0, x.1.now)) result (group_name_at text.now) }
    ensures shorter { IfOk result (λ x. length x.1.now < length text.now) }
{
    let Some((start, more)) = first(text) else {
        return Err(syntax(text));
    };
    if !is_name_start(start) {
        return Err(syntax(text));
    }
    let mut name = String::new(alloc);
    name.push(start)?;
    let mut rest = more;
    while let Some((character, following)) = first(rest) {
        if character == '>' {
            return Ok((name, following));
        }
        if !is_name_more(character) {
            break;
        }
        name.push(character)?;
        rest = following;
    }
    Err(syntax(rest))
}

/// The text after `<` or `P<`, where it begins with one of them.
#[tactic(auto, unfolding(crate::specs::GroupNames::name_mark_at))]
pub(crate) fn name_mark(text: &[char]) -> Option<&[char]>
    ensures value { option_map (λ rest. rest.now) result ≡ name_mark_at text.now }
    ensures shorter { IfSome result (λ rest. length rest.now < length text.now) }
{
    if let Some(rest) = after('<', text) {
        return Some(rest);
    }
    match after('P', text) {
        None => None,
        Some(angle) => after('<', angle),
    }
}
