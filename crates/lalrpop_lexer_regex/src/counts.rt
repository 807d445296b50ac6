//! The counts of a repetition.

ghost use Rattle.std.specs.Prelude.{◌≡◌, ◌∷◌, ◌+◌, ◌-◌, ◌<◌, ◌≤◌, [], length, MatchOption, IfOk, IfSome};
ghost use Rattle.lalrpop_lexer_regex.specs.Outcome.{GivesReading, value_read};
ghost use Rattle.lalrpop_lexer_regex.specs.Counts.{decimal_from, count_at};

use crate::classes::{PatternError, PatternFaultKind, first, syntax};

/// The greatest count of a repetition.
const MAX_COUNT: u32 = 1000;

/// The number that decimal digits at the front go on with, up to one above the greatest count, and the text after them.
fn decimal(start: u32, text: &[char]) -> (u32, &[char])
    requires { start ≤ 1001 }
    ensures value { (result.0, result.1.now) ≡ decimal_from start text.now }
    ensures shorter { length result.1.now ≤ length text.now }
{
    let mut value = start;
    let mut rest = text;
    while let Some((character, more)) = first(rest) {
        if !character.is_ascii_digit() {
            break;
        }
        value = (10 * value + (u32::from(character) - u32::from('0'))).min(MAX_COUNT + 1);
        rest = more;
    }
    (value, rest)
}

/// A count, and the text after it.
pub(crate) fn count(text: &[char]) -> Result<(u32, &[char]), PatternError>
    ensures gives { GivesReading value_read result (count_at text.now) }
    ensures shorter { IfOk result (λ x. length x.1.now < length text.now) }
{
    let Some((character, more)) = first(text) else {
        return Err(syntax(text));
    };
    if !character.is_ascii_digit() {
        return Err(syntax(text));
    }
    let (value, rest) = decimal(u32::from(character) - u32::from('0'), more);
    if value > MAX_COUNT {
        return Err(PatternError::Fault(PatternFaultKind::Unsupported, text.len()));
    }
    Ok((value, rest))
}
