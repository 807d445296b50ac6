//! Patterns that are compiled once and searched for often.

ghost use Rattle.std.specs.Prelude.{◌≡◌, IfOk, is_some};
ghost use Rattle.regex.specs.Patterns.{find_str};
ghost use Rattle.regex.specs.Strings.{regex_pattern};
ghost use Rattle.lalrpop_grammar_symbols.specs.Symbols.{Text};
ghost use Rattle.lalrpop_grammar_rules.specs.Finding.{IsFinding};
ghost use Rattle.lalrpop_grammar_rules.specs.Search.{finding_of, finds, is_too_deep};
ghost use Rattle.lalrpop_judge.specs.Compiled.{IsCompiledFrom};

use lalrpop_grammar_rules::closed::Finding;
use regex::{Error, Regex};
use std::alloc::{AllocError, Global};

/// What a pattern is compiled to.
#[derive(Drop)]
pub(crate) enum CompiledPattern {
    /// What is searched for.
    Expression(Regex),
    /// Nothing: it is no pattern, or one that is nested too deep.
    NotRead,
    /// Nothing: it is a pattern, but the search for it is refused.
    Refused,
}

impl CompiledPattern {
    /// What the pattern is compiled to.
    pub(crate) fn new(alloc: Global, pattern: &str) -> Result<CompiledPattern, AllocError>
        ensures { IfOk result (IsCompiledFrom pattern.now) }
    {
        match Regex::new(alloc, pattern) {
            Ok(regex) => Ok(CompiledPattern::Expression(regex)),
            Err(error) => match error {
                Error::Syntax(_) => Ok(CompiledPattern::NotRead),
                Error::CompiledTooBig => Ok(CompiledPattern::Refused),
                Error::Internal => Ok(CompiledPattern::Refused),
                Error::OutOfMemory => Err(AllocError),
            },
        }
    }

    /// Whether the pattern from which it was compiled is found anywhere in the text.
    pub(crate) fn find_in(&self, alloc: Global, text: &str) -> Result<Finding, AllocError>
        ensures { (pattern : Text) → IsCompiledFrom pattern self.now
            → IfOk result (IsFinding (finds pattern text.now) (is_too_deep pattern)) }
    {
        match self {
            CompiledPattern::Expression(regex) => search(alloc, regex, text),
            CompiledPattern::NotRead => Ok(Finding::NotRead),
            CompiledPattern::Refused => Ok(Finding::Refused),
        }
    }
}

/// Whether the expression is found anywhere in the text.
fn search(alloc: Global, regex: &Regex, text: &str) -> Result<Finding, AllocError>
    ensures { IfOk result (λ found. found
        ≡ finding_of (is_some (find_str (regex_pattern regex.now) text.now 0))) }
{
    let mut matcher = regex.matcher(alloc)?;
    if matcher.is_match(text) {
        Ok(Finding::Found)
    } else {
        Ok(Finding::Missing)
    }
}
