//! Searches for the patterns of conditions, by the kit's regular expressions with their default options.

ghost use Rattle.std.specs.Prelude.{◌≡◌, Bool, IfOk, List, Option, is_some, ℕ};
ghost use Rattle.regex.specs.Patterns.{find_str};
ghost use Rattle.regex.specs.Strings.{regex_pattern};
ghost use Rattle.lalrpop_grammar_rules.specs.Finding.{IsFinding};
ghost use Rattle.lalrpop_grammar_rules.specs.Search.{finding_of, finds as finds_in, is_too_deep};

use crate::closed::{Finder, Finding};
use regex::{Error, Regex};
use std::alloc::{AllocError, Global};

/// Searches texts for regular expressions.
#[derive(Clone, Copy)]
pub struct PatternFinder;

impl Finder for PatternFinder {
    ghost finds = { λ finder. finds_in };

    ghost too_deep = { λ finder. is_too_deep };

    fn find(&self, alloc: Global, pattern: &str, text: &str) -> Result<Finding, AllocError> {
        match Regex::new(alloc, pattern) {
            Ok(regex) => search(alloc, &regex, text),
            Err(error) => match error {
                Error::Syntax(_) => Ok(Finding::NotRead),
                Error::CompiledTooBig => Ok(Finding::Refused),
                Error::Internal => Ok(Finding::Refused),
                Error::OutOfMemory => Err(AllocError),
            },
        }
    }
}

/// Whether the expression is found anywhere in the text.
fn search(alloc: Global, regex: &Regex, text: &str) -> Result<Finding, AllocError>
    ensures { IfOk result (λ found. found
        ≡ finding_of (is_some (find_str (regex_pattern regex.now) text.now 0))) }
{
    let mut matcher = regex.matcher(alloc)?;
    if matcher.is_match(text) {
        Ok(Finding::Found)
    } else {
        Ok(Finding::Missing)
    }
}
