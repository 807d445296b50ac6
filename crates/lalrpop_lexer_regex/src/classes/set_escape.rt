//! Sets of characters that a backslash and a letter begin.

ghost use Rattle.std.specs.Prelude.{◌≡◌, ◌<◌, ◌≤◌, length, IfOk, Ok};
ghost use Rattle.lalrpop_lexer_regex.specs.Outcome.{GivesReading};
ghost use Rattle.lalrpop_lexer_regex.specs.Properties.{ranges_read};
ghost use Rattle.lalrpop_lexer_regex.specs.SetEscapes.{is_set_letter, finished_set, base_set_at, escaped_set_at};

use crate::classes::fault::PatternError;
use crate::classes::property::property;
use lalrpop_lexer_pattern::CharacterSet;
use std::alloc::Global;

/// Whether a backslash and the letter stand for a set of characters: one of `d D s S w W p P`.
pub fn is_set_letter(letter: char) -> bool
    ensures { result ≡ is_set_letter letter }
{
    matches!(letter, 'd' | 'D' | 's' | 'S' | 'w' | 'W' | 'p' | 'P')
}

/// The set with what shares a folding with its members where `fold` says so, and then its complement where it is negated.
#[tactic(auto, unfolding(crate::specs::SetEscapes::finished_set))]
pub(crate) fn finished_set(
    set: CharacterSet,
    fold: bool,
    negated: bool,
) -> Result<CharacterSet, PatternError>
    ensures { GivesReading (λ set. set.ranges.items) result (Ok (finished_set fold negated set.ranges.items)) }
{
    let folded = if fold { set.fold_case()? } else { set };
    let finished = if negated {
        folded.complement()?
    } else {
        folded
    };
    Ok(finished)
}

/// The set of a letter in lower case, and the text after it.
#[tactic(auto, unfolding(crate::specs::SetEscapes::base_set_at))]
fn base_set(
    alloc: Global,
    left: usize,
    letter: char,
    text: &[char],
) -> Result<(CharacterSet, &[char]), PatternError>
    ensures gives { GivesReading ranges_read result (base_set_at left letter text.now) }
    ensures shorter { IfOk result (λ x. length x.1.now ≤ length text.now) }
{
    if letter == 'd' || letter == 'D' {
        return Ok((CharacterSet::digits(alloc)?, text));
    }
    if letter == 's' || letter == 'S' {
        return Ok((CharacterSet::spaces(alloc)?, text));
    }
    if letter == 'w' || letter == 'W' {
        return Ok((CharacterSet::words(alloc)?, text));
    }
    let set = property(alloc, left, text)?;
    Ok(set)
}

/// The set that a backslash and the letter begin, and the text after it.
///
/// `letter` is one for which [`is_set_letter`] holds, `text` the text after it, and `left` is how many characters are
/// left at the backslash. Where `fold` says so, all that share a simple case folding with a member are in the set.
///
/// # Errors
///
/// At the backslash `UnknownName` for a name that stands for no set, and `Unsupported` for a key in front of `=` that is
/// not exactly `gc` or `sc`; `Syntax` where reading stopped for a name that isn't closed or begun; `Memory`.
#[tactic(auto, unfolding(crate::specs::SetEscapes::escaped_set_at))]
pub fn escaped_set(
    alloc: Global,
    left: usize,
    fold: bool,
    letter: char,
    text: &[char],
) -> Result<(CharacterSet, &[char]), PatternError>
    ensures gives { GivesReading ranges_read result (escaped_set_at left fold letter text.now) }
    ensures shorter { IfOk result (λ x. length x.1.now ≤ length text.now) }
{
    let (base, rest) = base_set(alloc, left, letter, text)?;
    let set = finished_set(base, fold, letter.is_ascii_uppercase())?;
    Ok((set, rest))
}
