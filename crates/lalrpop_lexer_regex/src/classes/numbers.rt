//! Characters by their numbers in hexadecimal.

ghost use Rattle.std.specs.Prelude.{◌≡◌, ◌∷◌, ◌+◌, ◌-◌, ◌<◌, ◌≤◌, [], length, MatchOption, IfOk, IfSome};
ghost use Rattle.lalrpop_lexer_pattern.specs.Sets.{is_scalar};
ghost use Rattle.lalrpop_lexer_regex.specs.Outcome.{GivesReading, value_read};
ghost use Rattle.lalrpop_lexer_regex.specs.Numbers.{hex_from, hex_to_brace, hex_at, scalar_at};

use crate::classes::fault::{PatternError, PatternFaultKind};
use crate::classes::text::{first, syntax};

/// The first number above the code points of Unicode.
const TOO_LARGE: u32 = 0x11_0000;

/// Some number of hexadecimal digits, and the text after them.
fn hex_digits(count: u32, text: &[char]) -> Result<(u32, &[char]), PatternError>
    ensures gives { GivesReading value_read result (hex_from count 0 text.now) }
    ensures within { IfOk result (λ x. x.0 ≤ 0x110000) }
    ensures shorter { IfOk result (λ x. length x.1.now ≤ length text.now) }
{
    let mut value = 0;
    let mut left = count;
    let mut rest = text;
    while left > 0 {
        let Some((character, more)) = first(rest) else {
            return Err(syntax(rest));
        };
        let Some(digit) = character.to_digit(16) else {
            return Err(syntax(rest));
        };
        value = (16 * value + digit).min(TOO_LARGE);
        left -= 1;
        rest = more;
    }
    Ok((value, rest))
}

/// Up to seven more hexadecimal digits and a closing brace, and the text after it.
fn hex_to_brace(start: u32, text: &[char]) -> Result<(u32, &[char]), PatternError>
    requires { start ≤ 0x110000 }
    ensures gives { GivesReading value_read result (hex_to_brace 7 start text.now) }
    ensures shorter { IfOk result (λ x. length x.1.now < length text.now) }
{
    let mut value = start;
    let mut left = 7u32;
    let mut rest = text;
    while let Some((character, more)) = first(rest) {
        if character == '}' {
            return Ok((value, more));
        }
        if left == 0 {
            break;
        }
        let Some(digit) = character.to_digit(16) else {
            break;
        };
        value = (16 * value + digit).min(TOO_LARGE);
        left -= 1;
        rest = more;
    }
    Err(syntax(rest))
}

/// A hexadecimal number of so many digits, or of one to eight in braces, and the text after it.
fn hex(count: u32, text: &[char]) -> Result<(u32, &[char]), PatternError>
    ensures gives { GivesReading value_read result (hex_at count text.now) }
    ensures shorter { IfOk result (λ x. length x.1.now ≤ length text.now) }
{
    match first(text) {
        Some(('{', more)) => {
            let (digit, rest) = hex_digits(1, more)?;
            let number = hex_to_brace(digit, rest)?;
            Ok(number)
        }
        _ => {
            let number = hex_digits(count, text)?;
            Ok(number)
        }
    }
}

/// Whether the number is a Unicode scalar value.
fn is_scalar(number: u32) -> bool
    ensures { result ≡ is_scalar number }
{
    number < 0xD800 || (0xE000 <= number && number <= 0x10_FFFF)
}

/// A character by its number in hexadecimal, and the text after it; `left` is told of a number that is no character.
pub(crate) fn scalar(left: usize, count: u32, text: &[char]) -> Result<(u32, &[char]), PatternError>
    ensures gives { GivesReading value_read result (scalar_at left count text.now) }
    ensures shorter { IfOk result (λ x. length x.1.now ≤ length text.now) }
{
    let (number, rest) = hex(count, text)?;
    if !is_scalar(number) {
        return Err(PatternError::Fault(PatternFaultKind::BadRange, left));
    }
    Ok((number, rest))
}
