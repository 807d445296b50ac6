//! The flags of a pattern, and how a group switches them.

ghost use Rattle.std.specs.Prelude.{◌≡◌, ◌<◌, ◌≤◌, length, IfOk, true, false};
ghost use Rattle.lalrpop_lexer_regex.specs.Outcome.{GivesReading, value_read};
ghost use Rattle.lalrpop_lexer_regex.specs.FlagSyntax.{flags_from};

use crate::classes::{PatternError, PatternFaultKind, first, syntax};

/// How characters and dots are read.
#[derive(Clone, Copy, PartialEq, Eq)]
pub(crate) struct Flags {
    /// A character stands for all that share a simple case folding with it, `i`.
    pub(crate) insensitive: bool,
    /// A dot stands for a line feed too, `s`.
    pub(crate) dot_all: bool,
}

/// The flags after `(?`, up to a colon or a closing bracket, and the text after it.
///
/// With them comes whether there was a colon, so that a pattern follows.
pub(crate) fn read_flags(
    before: Flags,
    text: &[char],
) -> Result<((Flags, bool), &[char]), PatternError>
    ensures gives { GivesReading value_read result (flags_from true false before text.now) }
    ensures shorter { IfOk result (λ x. length x.1.now < length text.now) }
{
    let mut flags = before;
    let mut on = true;
    let mut any = false;
    let mut rest = text;
    while let Some((character, more)) = first(rest) {
        if character == 'i' {
            flags.insensitive = on;
            any = true;
        } else if character == 's' {
            flags.dot_all = on;
            any = true;
        } else if character == '-' && on {
            on = false;
        } else if any && (character == ':' || character == ')') {
            return Ok(((flags, character == ':'), more));
        } else if character.is_ascii_alphabetic() {
            return Err(PatternError::Fault(PatternFaultKind::Unsupported, rest.len()));
        } else {
            break;
        }
        rest = more;
    }
    Err(syntax(rest))
}
