//! How often an atom of a pattern is repeated.

ghost use Rattle.std.specs.Prelude.{◌≡◌, ◌<◌, ◌≤◌, length, IfOk, IfSome};
ghost use Rattle.lalrpop_lexer_regex.specs.Outcome.{GivesReading, value_read};
ghost use Rattle.lalrpop_lexer_regex.specs.Repeats.{begins_repeat, greedy_at, upper_at, bounds_at, repeat_sign_at, repeats_read};

use crate::classes::{PatternError, PatternFaultKind, after, closing, first, syntax};
use crate::counts::count;
use lalrpop_lexer_pattern::Repeats;

/// Whether a repetition begins with the character.
pub(crate) fn begins_repeat(character: char) -> bool
    ensures { result ≡ begins_repeat character }
{
    matches!(character, '*' | '+' | '?' | '{')
}

/// The bounds whose lower one and a comma are read, and the text after them; `left` is told of bounds that are no range.
#[tactic(auto, unfolding(crate::specs::Repeats::upper_at))]
fn upper_bound(
    left: usize,
    min: u32,
    text: &[char],
) -> Result<((u32, Option<u32>), &[char]), PatternError>
    ensures gives { GivesReading value_read result (upper_at left min text.now) }
    ensures ordered { IfOk result (λ x. IfSome x.0.1 (λ m. x.0.0 ≤ m)) }
    ensures shorter { IfOk result (λ x. length x.1.now < length text.now) }
{
    if let Some(rest) = after('}', text) {
        return Ok(((min, None), rest));
    }
    let (max, close) = count(text)?;
    let rest = closing('}', close)?;
    if max < min {
        return Err(PatternError::Fault(PatternFaultKind::BadRange, left));
    }
    Ok(((min, Some(max)), rest))
}

/// The bounds after an opening brace, and the text after them; `left` is how much text is left at the brace.
#[tactic(auto, unfolding(crate::specs::Repeats::bounds_at))]
fn bounds(left: usize, text: &[char]) -> Result<((u32, Option<u32>), &[char]), PatternError>
    ensures gives { GivesReading value_read result (bounds_at left text.now) }
    ensures ordered { IfOk result (λ x. IfSome x.0.1 (λ m. x.0.0 ≤ m)) }
    ensures shorter { IfOk result (λ x. length x.1.now < length text.now) }
{
    let (min, rest) = count(text)?;
    if let Some(close) = after('}', rest) {
        return Ok(((min, Some(min)), close));
    }
    let upper = closing(',', rest)?;
    let bounds = upper_bound(left, min, upper)?;
    Ok(bounds)
}

/// How often the sign at the front repeats what stands before it, and the text after it.
#[tactic(auto, unfolding(crate::specs::Repeats::repeat_sign_at))]
fn sign(text: &[char]) -> Result<((u32, Option<u32>), &[char]), PatternError>
    ensures gives { GivesReading value_read result (repeat_sign_at text.now) }
    ensures ordered { IfOk result (λ x. IfSome x.0.1 (λ m. x.0.0 ≤ m)) }
    ensures shorter { IfOk result (λ x. length x.1.now < length text.now) }
{
    let Some((character, rest)) = first(text) else {
        return Err(syntax(text));
    };
    if character == '*' {
        return Ok(((0, None), rest));
    }
    if character == '+' {
        return Ok(((1, None), rest));
    }
    if character == '?' {
        return Ok(((0, Some(1)), rest));
    }
    let bounds = bounds(text.len(), rest)?;
    Ok(bounds)
}

/// Whether no question mark comes first, and the text after it.
fn greedy(text: &[char]) -> (bool, &[char])
    ensures value { (result.0, result.1.now) ≡ greedy_at text.now }
    ensures shorter { length result.1.now ≤ length text.now }
{
    match after('?', text) {
        Some(rest) => (false, rest),
        None => (true, text),
    }
}

/// How often what stands before the text is repeated, and the text after that.
#[tactic(auto, unfolding(crate::specs::Repeats::repeats_read))]
pub(crate) fn repeat(text: &[char]) -> Result<(Repeats, &[char]), PatternError>
    ensures gives { GivesReading (λ x. ((x.0.min, (x.0.max, x.0.greedy)), x.1.now)) result (repeats_read text.now) }
    ensures shorter { IfOk result (λ x. length x.1.now < length text.now) }
{
    let ((min, max), mark) = sign(text)?;
    let (greedy, rest) = greedy(mark);
    Ok((Repeats::new(min, max, greedy), rest))
}
