//! The front of a text: its first character, the text after an expected one, and the fault of another one.

ghost use Rattle.std.specs.Prelude.{◌≡◌, ◌∷◌, ◌+◌, ◌<◌, [], length, MatchOption, IfOk, IfSome, option_map};
ghost use Rattle.lalrpop_lexer_regex.specs.Outcome.{GivesReading, closing_at, after_at};

use crate::classes::fault::{PatternError, PatternFaultKind};

/// The first character of the text, and the text after it; none where the text is empty.
pub fn first(text: &[char]) -> Option<(char, &[char])>
    ensures { MatchOption result (text.now ≡ []) (λ x. text.now ≡ x.0 ∷ x.1.now) }
{
    let (character, rest) = text.split_first()?;
    Some((*character, rest))
}

/// The fault of a text whose rest isn't what the syntax allows, told at that rest.
pub fn syntax(rest: &[char]) -> PatternError
    ensures { result ≡ PatternError.Fault PatternFaultKind.Syntax (length rest.now) }
{
    PatternError::Fault(PatternFaultKind::Syntax, rest.len())
}

/// The text after the character that it has to begin with.
///
/// # Errors
///
/// `Syntax` at the text, where it begins with another one or is empty.
pub fn closing(close: char, text: &[char]) -> Result<&[char], PatternError>
    ensures gives { GivesReading (λ rest. rest.now) result (closing_at close text.now) }
    ensures shorter { IfOk result (λ rest. length rest.now < length text.now) }
{
    match first(text) {
        Some((character, rest)) if character == close => Ok(rest),
        _ => Err(syntax(text)),
    }
}

/// The text after the character, where it begins with it; else none.
pub fn after(mark: char, text: &[char]) -> Option<&[char]>
    ensures value { option_map (λ rest. rest.now) result ≡ after_at mark text.now }
    ensures shorter { IfSome result (λ rest. length rest.now < length text.now) }
{
    match first(text) {
        Some((character, rest)) if character == mark => Some(rest),
        _ => None,
    }
}
