//! Tokens with the numbers of their entries.

ghost use Rattle.std.specs.Prelude.{◌≡◌, ◌++◌, OnOk, [], map};
ghost use Rattle.lalrpop_grammar_symbols.specs.Views.{span_view};
ghost use Rattle.lalrpop_grammar.specs.Views.{token_view};
ghost use Rattle.lalrpop_lexer_scan.specs.declared.scanner.Scanner.{Scanner};
ghost use Rattle.lalrpop_lexer_scan.specs.Scanning.{AreEntriesOf, IsItsTerminal, found_terminal_view, token_of};

use crate::entry_terminal::EntryTerminal;
use lalrpop_grammar::ScanToken;
use lalrpop_grammar_symbols::Span;
use std::alloc::{AllocError, Global};

/// Tokens of a text, and the numbers of their entries.
#[derive(Drop)]
pub struct EntryTokens<'t> {
    /// The tokens.
    pub tokens: Vec<ScanToken<'t>>,
    /// For each of them the number of the entry that matches it.
    pub entries: Vec<usize>,
}

impl<'t> EntryTokens<'t> {
    /// No tokens.
    pub(crate) fn new(alloc: Global) -> EntryTokens<'t>
        ensures tokens { result.tokens.items ≡ [] }
        ensures entries { result.entries.items ≡ [] }
    {
        EntryTokens {
            tokens: Vec::new(alloc),
            entries: Vec::new(alloc),
        }
    }

    /// Appends the token of a piece that stands there, where it has a terminal.
    pub(crate) fn push_piece(
        &mut self,
        of: Option<EntryTerminal<'_>>,
        piece: &'t str,
        span: Span,
    ) -> Result<(), AllocError>
        ensures tokens { OnOk result (map token_view self.new.tokens.items
            ≡ map token_view self.old.tokens.items ++ token_of (found_terminal_view of.entry) piece.now (span_view span)) }
        ensures entries { OnOk result ((s : Scanner) → IsItsTerminal s of.entry
            → AreEntriesOf s self.old.tokens.items self.old.entries.items
            → AreEntriesOf s self.new.tokens.items self.new.entries.items) }
    {
        if let Some(found) = of {
            self.tokens.push(ScanToken {
                terminal: found.terminal.try_clone()?,
                text: piece,
                span,
            })?;
            self.entries.push(found.number)?;
        }
        Ok(())
    }
}
