//! The one character that the text after a backslash stands for.

ghost use Rattle.std.specs.Prelude.{◌≡◌, ◌∷◌, ◌<◌, ◌≤◌, length, IfOk};
ghost use Rattle.lalrpop_lexer_regex.specs.Outcome.{GivesReading, value_read};
ghost use Rattle.lalrpop_lexer_regex.specs.Escapes.{control_of, escaped_character_at};

use crate::classes::fault::{PatternError, PatternFaultKind};
use crate::classes::numbers::scalar;
use crate::classes::text::{first, syntax};

/// The control character that a letter after a backslash stands for.
fn control(letter: char) -> Option<u32>
    ensures { result ≡ control_of letter }
{
    match letter {
        'a' => Some(0x07),
        't' => Some(0x09),
        'n' => Some(0x0A),
        'v' => Some(0x0B),
        'f' => Some(0x0C),
        'r' => Some(0x0D),
        _ => None,
    }
}

/// The one character that the text after a backslash stands for, and the text after that.
///
/// `left` is how many characters are left at the backslash.
///
/// # Errors
///
/// `Unsupported` at the backslash for an angle, `BadRange` there for a number that is no character, and `Syntax` where
/// reading stopped for all else that is none of the escapes.
#[tactic(auto, unfolding(crate::specs::Escapes::escaped_character_at))]
pub fn escaped_character(left: usize, text: &[char]) -> Result<(u32, &[char]), PatternError>
    ensures gives { GivesReading value_read result (escaped_character_at left text.now) }
    ensures shorter { IfOk result (λ x. length x.1.now < length text.now) }
{
    let Some((character, rest)) = first(text) else {
        return Err(syntax(text));
    };
    if character == '<' || character == '>' {
        return Err(PatternError::Fault(PatternFaultKind::Unsupported, left));
    }
    if character.is_ascii_punctuation() {
        return Ok((u32::from(character), rest));
    }
    if let Some(control) = control(character) {
        return Ok((control, rest));
    }
    if character == 'x' {
        let number = scalar(left, 2, rest)?;
        return Ok(number);
    }
    if character == 'u' {
        let number = scalar(left, 4, rest)?;
        return Ok(number);
    }
    if character == 'U' {
        let number = scalar(left, 8, rest)?;
        return Ok(number);
    }
    Err(syntax(text))
}
