//! The tokens of a text.

ghost use Rattle.std.specs.Prelude.{IfOk, IfErr, List, map};
ghost use Rattle.std.specs.Str.{chars};
ghost use Rattle.lalrpop_grammar.specs.Views.{token_view};
ghost use Rattle.lalrpop_lexer_scan.specs.Entries.{ScanEntry};
ghost use Rattle.lalrpop_lexer_scan.specs.Tokens.{AreTokensOf, FillTheText};
ghost use Rattle.lalrpop_lexer_scan.specs.Scanning.{AreEntriesOf, IsScannerOf};
ghost use Rattle.lalrpop_lexer_scan.specs.Faults.{TellsNoToken};

use crate::entry_tokens::EntryTokens;
use crate::fault::ScanError;
use crate::scanner::Scanner;
use lalrpop_grammar::ScanToken;
use lalrpop_grammar_symbols::Span;
use lalrpop_lexer::dfa::DeadEnds;
use std::alloc::Global;

impl Scanner {
    /// The tokens of the text: the pieces of its cut that aren't skipped.
    ///
    /// # Errors
    ///
    /// The byte from which on nothing nonempty is matched, where the cut doesn't reach the end; or want of memory.
    pub fn scan<'t>(&self, alloc: Global, text: &'t str) -> Result<Vec<ScanToken<'t>>, ScanError>
        ensures tokens { IfOk result (λ tokens. (entries : List ScanEntry) → IsScannerOf self.now entries
            → AreTokensOf entries (chars text.now) (map token_view tokens.items)) }
        ensures filled { IfOk result (λ tokens. FillTheText text.now (map token_view tokens.items)) }
        ensures no_token { IfErr result (λ error. (entries : List ScanEntry) → IsScannerOf self.now entries
            → TellsNoToken entries (chars text.now) error) }
    {
        let EntryTokens { tokens, entries: _ } = self.scan_entries(alloc, text)?;
        Ok(tokens)
    }

    /// The tokens of the text, as `scan` finds them, with the numbers of the entries that match them.
    ///
    /// # Errors
    ///
    /// The byte from which on nothing nonempty is matched, where the cut doesn't reach the end; or want of memory.
    pub fn scan_entries<'t>(
        &self,
        alloc: Global,
        text: &'t str,
    ) -> Result<EntryTokens<'t>, ScanError>
        ensures tokens { IfOk result (λ found. (entries : List ScanEntry) → IsScannerOf self.now entries
            → AreTokensOf entries (chars text.now) (map token_view found.tokens.items)) }
        ensures filled { IfOk result (λ found. FillTheText text.now (map token_view found.tokens.items)) }
        ensures entries { IfOk result (λ found. AreEntriesOf self.now found.tokens.items found.entries.items) }
        ensures no_token { IfErr result (λ error. (entries : List ScanEntry) → IsScannerOf self.now entries
            → TellsNoToken entries (chars text.now) error) }
    {
        let mut found = EntryTokens::new(alloc);
        let mut ends = DeadEnds::new(alloc);
        let mut rest = text;
        while !rest.is_empty() {
            let at = text.len() - rest.len();
            let Some((piece, of)) = self.piece(rest, &mut ends) else {
                return Err(ScanError::NoToken(at));
            };
            rest = &rest[piece.len()..];
            let end = text.len() - rest.len();
            found.push_piece(of, piece, Span(at, end))?;
        }
        Ok(found)
    }
}
