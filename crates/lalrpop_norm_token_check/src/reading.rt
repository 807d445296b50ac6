//! The patterns and precedences of entries.

ghost use Rattle.std.specs.Prelude.{◌≡◌, IfErr, IfOk, map, option_map};
ghost use Rattle.std.specs.Str.{chars};
ghost use Rattle.lalrpop_grammar_symbols.specs.Views.{literal_view};
ghost use Rattle.lalrpop_grammar.specs.Views.{intern_entry_view};
ghost use Rattle.lalrpop_lexer_pattern.specs.Meaning.{meaning};
ghost use Rattle.lalrpop_lexer_regex.specs.Regex.{whole_pattern};
ghost use Rattle.lalrpop_lexer.specs.Outcome.{numbers};
ghost use Rattle.lalrpop_lexer_scan.specs.Patterns.{if_supported, pattern_of};
ghost use Rattle.lalrpop_norm_token_check.specs.EntryFaults.{IsEntryFault};
ghost use Rattle.lalrpop_norm_token_check.specs.Patterns.{AreEntryPatterns, entry_precedences};

use crate::automaton::EntryFault;
use lalrpop_grammar::MatchEntry;
use lalrpop_grammar_symbols::TerminalLiteral;
use lalrpop_lexer::dfa::Precedence;
use lalrpop_lexer_pattern::{Regex, parse_literal};
use lalrpop_lexer_regex::{RegexError, parse_regex};
use std::alloc::{AllocError, Global};

/// The patterns of the entries, or the literal of the first entry that is refused.
pub(crate) fn read_patterns(alloc: Global, entries: &[MatchEntry]) -> Result<Vec<Regex>, EntryFault>
    ensures read { IfOk result (λ patterns.
        AreEntryPatterns (map intern_entry_view entries.now) (map meaning patterns.items)) }
    ensures refused { IfErr result (IsEntryFault (map intern_entry_view entries.now)) }
{
    let mut patterns = Vec::new(alloc);
    for entry in entries {
        let Some(pattern) = read_pattern(alloc, &entry.match_literal)? else {
            return Err(EntryFault::Refused(entry.match_literal.try_clone()?));
        };
        patterns.push(pattern)?;
    }
    Ok(patterns)
}

/// The pattern of a literal; none where it is refused.
fn read_pattern(alloc: Global, literal: &TerminalLiteral) -> Result<Option<Regex>, AllocError>
    ensures { IfOk result (λ read. option_map meaning read ≡ pattern_of (literal_view literal.now)) }
{
    match literal {
        TerminalLiteral::Quoted(text) => Ok(Some(parse_literal(alloc, text.as_str())?)),
        TerminalLiteral::Regex(pattern) => {
            let read = read_regex(alloc, pattern.as_str())?;
            Ok(read)
        }
    }
}

/// The pattern that the text is; none where it is none, or one that no automaton is made for.
fn read_regex(alloc: Global, text: &str) -> Result<Option<Regex>, AllocError>
    ensures { IfOk result (λ read. option_map meaning read ≡ if_supported (whole_pattern (chars text.now))) }
{
    match parse_regex(alloc, text) {
        Ok(pattern) => {
            if pattern.refusal().is_some() {
                Ok(None)
            } else {
                Ok(Some(pattern))
            }
        }
        Err(RegexError::Memory) => Err(AllocError),
        Err(RegexError::Syntax(_)) => Ok(None),
        Err(RegexError::Unsupported(_)) => Ok(None),
        Err(RegexError::BadRange(_)) => Ok(None),
        Err(RegexError::UnknownName(_)) => Ok(None),
    }
}

/// The precedences of the entries.
pub(crate) fn precedences_of(
    alloc: Global,
    entries: &[MatchEntry],
) -> Result<Vec<Precedence>, AllocError>
    ensures { IfOk result (λ found. numbers found.items ≡ entry_precedences (map intern_entry_view entries.now)) }
{
    let mut found = Vec::new(alloc);
    for entry in entries {
        found.push(Precedence(entry.precedence))?;
    }
    Ok(found)
}
