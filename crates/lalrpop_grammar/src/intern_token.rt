//! The tokenizer's entries, as the normalizer puts them into a grammar.

ghost use Rattle.std.specs.Prelude.{◌≡◌, IfOk};

use crate::match_token::MatchMapping;
use lalrpop_grammar_symbols::{List, TerminalLiteral};
use std::alloc::{AllocError, Global};

/// One entry of a tokenizer.
#[derive(PartialEq, Eq)]
pub struct MatchEntry {
    /// Which entry wins where two match the same text: the greater.
    pub precedence: usize,
    /// What it matches.
    pub match_literal: TerminalLiteral,
    /// What its matches become.
    pub user_name: MatchMapping,
}

impl Drop for MatchEntry {
    /// Drops what it holds: where it is owned, that is one call.
    fn drop(self) {
        let MatchEntry {
            precedence: _,
            match_literal: _match_literal,
            user_name: _user_name,
        } = self;
    }
}

/// The entries of a tokenizer.
#[derive(PartialEq, Eq)]
pub struct InternToken {
    /// The entries, in order.
    pub match_entries: List<MatchEntry>,
}

impl Drop for InternToken {
    /// Drops what it holds: where it is owned, that is one call.
    fn drop(self) {
        let InternToken {
            match_entries: _match_entries,
        } = self;
    }
}

impl MatchEntry {
    /// What its matches become.
    pub fn into_user_name(self) -> MatchMapping
        ensures { result ≡ self.user_name }
    {
        let MatchEntry {
            precedence: _,
            match_literal: _match_literal,
            user_name,
        } = self;
        user_name
    }

    /// A copy that equals it.
    pub fn try_clone(&self) -> Result<MatchEntry, AllocError>
        ensures { IfOk result (λ copy. copy ≡ self.now) }
    {
        Ok(MatchEntry {
            precedence: self.precedence,
            match_literal: self.match_literal.try_clone()?,
            user_name: self.user_name.try_clone()?,
        })
    }
}

impl InternToken {
    /// The entries.
    pub fn into_entries(self) -> List<MatchEntry>
        ensures { result ≡ self.match_entries }
    {
        let InternToken { match_entries } = self;
        match_entries
    }

    /// A copy that equals it.
    pub fn try_clone(&self, alloc: Global) -> Result<InternToken, AllocError>
        ensures { IfOk result (λ copy. copy ≡ self.now) }
    {
        let mut match_entries = List::new(alloc);
        for entry in self.match_entries.as_slice() {
            match_entries.push(entry.try_clone()?)?;
        }
        Ok(InternToken { match_entries })
    }
}
