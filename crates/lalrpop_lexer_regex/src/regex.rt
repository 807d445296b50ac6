//! A whole text as a pattern.

ghost use Rattle.std.specs.Prelude.{◌≡◌, ◌<◌, ◌≤◌, ◌^◌, length, take, IfOk, encode_utf8_all};
ghost use Rattle.lalrpop_lexer_pattern.specs.Meaning.{meaning};
ghost use Rattle.lalrpop_lexer_regex.specs.Outcome.{GivesReading};
ghost use Rattle.lalrpop_lexer_regex.specs.Regex.{whole_pattern, fault_byte, Answers};

use crate::classes::{PatternError, PatternFaultKind, first, syntax};
use crate::error::RegexError;
use crate::flags::Flags;
use crate::pattern::pattern;
use lalrpop_lexer_pattern::{Hir, Regex, characters_of};
use std::alloc::Global;

/// How deep groups and classes may stand in one another.
const MAX_DEPTH: u32 = 250;

/// Reads a pattern from its text.
///
/// The syntax is the one that the crate's page lists. A fault is told with the byte of the text where it stands.
///
/// # Errors
///
/// The text is refused exactly where it is no pattern, and for want of memory.
pub fn parse_regex(alloc: Global, text: &str) -> Result<Regex, RegexError>
    ensures { Answers text.now result }
{
    let Ok(characters) = characters_of(alloc, text) else {
        return Err(RegexError::Memory);
    };
    match whole(alloc, &characters) {
        Ok(tree) => Ok(tree),
        Err(PatternError::Memory) => Err(RegexError::Memory),
        Err(PatternError::Fault(kind, left)) => {
            let total = text.len();
            let at = fault_byte(&characters, left);
            prove!(at <= total);
            Err(match kind {
                PatternFaultKind::Syntax => RegexError::Syntax(at),
                PatternFaultKind::Unsupported => RegexError::Unsupported(at),
                PatternFaultKind::BadRange => RegexError::BadRange(at),
                PatternFaultKind::UnknownName => RegexError::UnknownName(at),
            })
        }
    }
}

/// The tree of the whole text.
#[tactic(auto, unfolding(crate::specs::Regex::whole_pattern))]
fn whole(alloc: Global, text: &[char]) -> Result<Hir, PatternError>
    ensures { GivesReading meaning result (whole_pattern text.now) }
{
    let flags = Flags {
        insensitive: false,
        dot_all: false,
    };
    let (tree, rest) = pattern(alloc, MAX_DEPTH, flags, text)?;
    if let Some(_) = first(rest) {
        return Err(syntax(rest));
    }
    Ok(tree)
}

/// The byte in front of the last `left` characters.
fn fault_byte(characters: &[char], left: usize) -> usize
    requires { length (encode_utf8_all characters.now) < 2 ^ 64 }
    ensures { result ≡ fault_byte characters.now left }
{
    let mut at = 0;
    for i in 0..characters.len().saturating_sub(left) {
        at += characters[i].len_utf8();
    }
    at
}
