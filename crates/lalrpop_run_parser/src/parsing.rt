//! Parsing a text.

ghost use Rattle.std.specs.Prelude.{List, map};
ghost use Rattle.std.specs.Str.{chars};
ghost use Rattle.lalrpop_grammar.specs.Views.{grammar_view, token_view};
ghost use Rattle.lalrpop_lexer_scan.specs.Entries.{ScanEntry};
ghost use Rattle.lalrpop_lexer_scan.specs.Scanning.{AreEntriesOf, IsScannerOf};
ghost use Rattle.lalrpop_lr1_interpret.specs.Tables.{IsTableOf};
ghost use Rattle.lalrpop_lr1_theory.specs.Runs.{PassesLimit};
ghost use Rattle.lalrpop_lr1_theory.specs.States.{State};
ghost use Rattle.lalrpop_norm_theory.specs.Premises.{IsReadGrammar};
ghost use Rattle.lalrpop_run_parser.specs.Limits.{TellsLimitWhere, TextPassesLimit};
ghost use Rattle.lalrpop_run_parser.specs.ParserAnswers.{IsRightForItsText, IsRightForItsTokens, IsWrongAt, TellsStop};
ghost use Rattle.lalrpop_run_theory.specs.TextAnswers.{terminals_of_tokens};

use crate::parse_error::ParseError;
use crate::parser::Parser;
use crate::written_stack::WrittenTrees;
use lalrpop_grammar::{ScanToken, WrittenTree};
use lalrpop_grammar_symbols::Atom;
use lalrpop_lr1_interpret::parse::Stop;
use lalrpop_run_theory::answers::forests_correspond;
use lalrpop_run_theory::text_answers::right_parses_are_right;
use std::alloc::Global;

/// That the tokens up to and with this one begin no sentence.
fn wrong_token(alloc: Global, token: &ScanToken<'_>) -> ParseError
    ensures { IsWrongAt (token_view token.now) result }
{
    match Atom::new(alloc, token.text) {
        Ok(text) => ParseError::Token {
            at: token.span.0,
            text,
        },
        Err(_) => ParseError::Memory,
    }
}

/// What is told where the parse of the tokens stops.
fn error_of_stop(alloc: Global, tokens: &[ScanToken<'_>], stop: Stop) -> ParseError
    ensures { TellsStop (map token_view tokens.now) stop result }
{
    match stop {
        Stop::Token(place) => match tokens.get(place) {
            Some(token) => wrong_token(alloc, token),
            None => ParseError::End,
        },
        Stop::End => ParseError::End,
        Stop::Limit => ParseError::Limit,
        Stop::Memory => ParseError::Memory,
    }
}

impl<'p> Parser<'p> {
    /// The written tree of the tokens of these entries, whose expanded tree has at most `limit` leaves and nodes; or why they have
    /// none.
    fn parse_tokens(
        &self,
        alloc: Global,
        tokens: &[ScanToken<'_>],
        entries: &[usize],
        limit: u64,
    ) -> Result<WrittenTree, ParseError>
        requires { AreEntriesOf self.now.prepared.scanner tokens.now entries.now }
        ensures right { IsReadGrammar (grammar_view self.now.prepared.written)
            → IsRightForItsTokens self.now.prepared (map token_view tokens.now) limit result }
        ensures limit { (states : List State) → IsTableOf self.now.table states
            → TellsLimitWhere (PassesLimit states (terminals_of_tokens (map token_view tokens.now)) limit) result }
    {
        // the laws and what is known of the grammar
        forests_correspond();
        right_parses_are_right();
        self.prepared.known();
        let actions = self.prepared.expansion().action_fn_defns.as_slice();
        let mut stack = WrittenTrees::new(alloc, actions, self.prepared.origins());
        match self
            .table
            .parse_by_columns(alloc, tokens, entries, &self.columns, limit, &mut stack)
        {
            Ok(()) => match stack.into_last() {
                Some(tree) => Ok(tree),
                None => unreachable!(),
            },
            Err(stop) => Err(error_of_stop(alloc, tokens, stop)),
        }
    }

    /// The written tree of the text: the only one that the grammar admits from the start over the text's tokens, spans inside
    /// arguments aside. Its expanded tree, after inlining, has at most `limit` leaves and nodes.
    ///
    /// It is promised for a grammar as one is read.
    ///
    /// # Errors
    ///
    /// `NoToken` before all else: the first byte from which on the text has no token. `Token`, the first with which the tokens begin no
    /// sentence; `End`, where they all begin one and are none; or `Limit`, exactly where every byte of the text has its token and the
    /// parser's states make more than `limit` moves over the tokens: a tree has more leaves and nodes then. Or `Memory`.
    pub fn parse(&self, alloc: Global, text: &str, limit: u64) -> Result<WrittenTree, ParseError>
        ensures right { IsReadGrammar (grammar_view self.now.prepared.written) → (entries : List ScanEntry)
            → IsScannerOf self.now.prepared.scanner entries
            → IsRightForItsText self.now.prepared entries (chars text.now) limit result }
        ensures limit { (states : List State) (entries : List ScanEntry) → IsTableOf self.now.table states
            → IsScannerOf self.now.prepared.scanner entries
            → TellsLimitWhere (TextPassesLimit states entries (chars text.now) limit) result }
    {
        let found = self.scan_entries(alloc, text)?;
        let tokens = found.tokens.as_slice();
        self.parse_tokens(alloc, tokens, found.entries.as_slice(), limit)
    }
}
