//! The tokens of a text, given to a receiver.

ghost use Rattle.std.specs.Prelude.{◌++◌, IfOk, IfErr, List, OnOk, []};
ghost use Rattle.std.specs.Str.{chars};
ghost use Rattle.lalrpop_grammar.specs.Trees.{Token};
ghost use Rattle.lalrpop_grammar_symbols.specs.Views.{span_view};
ghost use Rattle.lalrpop_lexer_scan.specs.Entries.{ScanEntry};
ghost use Rattle.lalrpop_lexer_scan.specs.Faults.{TellsNoToken};
ghost use Rattle.lalrpop_lexer_scan.specs.Given.{HasItsTokens};
ghost use Rattle.lalrpop_lexer_scan.specs.Scanning.{IsScannerOf, found_terminal_view, token_of};

use crate::entry_terminal::EntryTerminal;
use crate::fault::ScanError;
use crate::receiver::TokenReceiver;
use crate::scanner::Scanner;
use lalrpop_grammar_symbols::Span;
use lalrpop_lexer::dfa::DeadEnds;
use std::alloc::AllocError;

impl Scanner {
    /// Gives the tokens of the text to the receiver, one after the other, as `scan` finds them.
    ///
    /// # Errors
    ///
    /// Those of `scan`, or what the receiver wants memory for. What comes in front was given to it.
    pub fn scan_into<R: TokenReceiver>(&self, text: &str, receiver: &mut R) -> Result<(), ScanError>
        ensures received { R.has_received receiver.old [] → IfOk result (λ _. HasItsTokens self.now text.now (R.has_received receiver.new)) }
        ensures no_token { IfErr result (λ error. (entries : List ScanEntry) → IsScannerOf self.now entries
            → TellsNoToken entries (chars text.now) error) }
    {
        let mut ends = DeadEnds::new(*self.terminals.allocator());
        let mut rest = text;
        while !rest.is_empty() {
            let at = text.len() - rest.len();
            let Some((piece, of)) = self.piece(rest, &mut ends) else {
                return Err(ScanError::NoToken(at));
            };
            rest = &rest[piece.len()..];
            let end = text.len() - rest.len();
            give(receiver, of, piece, Span(at, end))?;
        }
        Ok(())
    }
}

/// Gives the receiver the token of a piece that stands there, where it has a terminal.
fn give<R: TokenReceiver>(
    receiver: &mut R,
    of: Option<EntryTerminal<'_>>,
    piece: &str,
    span: Span,
) -> Result<(), AllocError>
    ensures { OnOk result ((tokens : List Token) → R.has_received receiver.old tokens
        → R.has_received receiver.new (tokens ++ token_of (found_terminal_view of.entry) piece.now (span_view span))) }
{
    match of {
        Some(found) => receiver.receive(found.terminal, piece, span),
        None => Ok(()),
    }
}
