//! Finders that search no text.

ghost use Rattle.std.specs.Prelude.{Bool, IfOk, List, Option, Some, false, ℕ};
ghost use Rattle.lalrpop_grammar_rules.specs.Finding.{IsFinding};

use lalrpop_grammar_rules::closed::{Finder, Finding};
use std::alloc::{AllocError, Global};

/// It finds no pattern anywhere.
#[derive(Clone, Copy)]
pub(crate) struct FindsNothing;

impl Finder for FindsNothing {
    ghost finds = { λ _ _ _. Some false };

    ghost too_deep = { λ _ _. false };

    fn find(&self, _alloc: Global, _pattern: &str, _text: &str) -> Result<Finding, AllocError> {
        Ok(Finding::Missing)
    }
}

/// It reads each pattern, and gives up each search.
#[derive(Clone, Copy)]
pub(crate) struct GivesUp;

impl Finder for GivesUp {
    ghost finds = { λ _ _ _. Some false };

    ghost too_deep = { λ _ _. false };

    fn find(&self, _alloc: Global, _pattern: &str, _text: &str) -> Result<Finding, AllocError> {
        Ok(Finding::Refused)
    }
}

/// It is refused its memory.
#[derive(Clone, Copy)]
pub(crate) struct WithoutMemory;

impl Finder for WithoutMemory {
    ghost finds = { λ _ _ _. Some false };

    ghost too_deep = { λ _ _. false };

    fn find(&self, _alloc: Global, _pattern: &str, _text: &str) -> Result<Finding, AllocError> {
        Err(AllocError)
    }
}
