//! Parsers.

ghost use Rattle.std.specs.Prelude.{◌≡◌, IfErr, IfOk, List, [], map};
ghost use Rattle.std.specs.Str.{chars};
ghost use Rattle.lalrpop_grammar.specs.Views.{token_view};
ghost use Rattle.lalrpop_lexer_scan.specs.Entries.{ScanEntry};
ghost use Rattle.lalrpop_lexer_scan.specs.Faults.{TellsNoToken};
ghost use Rattle.lalrpop_lexer_scan.specs.Given.{HasItsTokens};
ghost use Rattle.lalrpop_lexer_scan.specs.Scanning.{AreEntriesOf, IsScannerOf};
ghost use Rattle.lalrpop_lexer_scan.specs.Tokens.{AreTokensOf, FillTheText};

use crate::witnesses::Prepared;
use lalrpop_grammar::ScanToken;
use lalrpop_lexer_scan::{EntryTokens, ScanError, TokenReceiver};
use lalrpop_lr1_interpret::parse::{ActionTable, Columns};
use std::alloc::Global;
use std::marker::Model;

/// A parser of a prepared grammar: what its states do, by numbers, and the number of each entry's terminal. No call changes it.
#[derive(Drop)]
pub struct Parser<'p> {
    pub(crate) prepared: &'p Prepared,
    pub(crate) table: ActionTable<'p>,
    // For each entry of the scanner the table's column of its terminal.
    pub(crate) columns: Columns,
    pub(crate) state_count: usize,
}

impl<'p> Model for Parser<'p> {
    ghost use Rattle.std.specs.Coded.{codes};
    ghost use Rattle.std.specs.Prelude.{[]};
    ghost use mir.Syntax.{named};
    ghost use Rattle.lalrpop_lr1_interpret.specs.contracts.parse.action_table.ActionTable as tables;
    ghost use Rattle.lalrpop_run_parser.specs.Parsers.{IsParserWith, ParserView};
    ghost use Rattle.lalrpop_run_prepare.specs.contracts.prepared.Prepared as preparations;

    ghost Value = { ParserView };

    ghost coded = { Prim.hlevel (codes, preparations.the_row.coded, (tables.the_row (record { mir = named 0; lft = [] })).coded) };

    ghost view = { λ p. record { prepared = p.prepared.now; table = p.table; count = p.state_count } };

    ghost invariant = { λ p. IsParserWith p.prepared.now p.table p.columns p.state_count };
}

impl<'p> Parser<'p> {
    /// How many states it has.
    pub fn state_count(&self) -> usize
        ensures { result ≡ self.now.count }
    {
        self.state_count
    }

    /// The tokens of the text: the pieces of its cut that aren't skipped.
    ///
    /// # Errors
    ///
    /// The byte from which on nothing nonempty is matched, where the cut doesn't reach the end; or want of memory.
    pub fn scan<'t>(&self, alloc: Global, text: &'t str) -> Result<Vec<ScanToken<'t>>, ScanError>
        ensures tokens { IfOk result (λ tokens. (entries : List ScanEntry) → IsScannerOf self.now.prepared.scanner entries
            → AreTokensOf entries (chars text.now) (map token_view tokens.items)) }
        ensures filled { IfOk result (λ tokens. FillTheText text.now (map token_view tokens.items)) }
        ensures no_token { IfErr result (λ error. (entries : List ScanEntry) → IsScannerOf self.now.prepared.scanner entries
            → TellsNoToken entries (chars text.now) error) }
    {
        self.prepared.scanner().scan(alloc, text)
    }

    /// Gives the tokens of the text to the receiver, one after the other, as `scan` finds them.
    ///
    /// # Errors
    ///
    /// Those of `scan`, or what the receiver wants memory for. What comes in front was given to it.
    pub fn scan_into<R: TokenReceiver>(&self, text: &str, receiver: &mut R) -> Result<(), ScanError>
        ensures received { R.has_received receiver.old []
            → IfOk result (λ _. HasItsTokens self.now.prepared.scanner text.now (R.has_received receiver.new)) }
        ensures no_token { IfErr result (λ error. (entries : List ScanEntry) → IsScannerOf self.now.prepared.scanner entries
            → TellsNoToken entries (chars text.now) error) }
    {
        self.prepared.scanner().scan_into(text, receiver)
    }

    /// The tokens of the text, as `scan` finds them, with the numbers of the entries that match them.
    pub(crate) fn scan_entries<'t>(
        &self,
        alloc: Global,
        text: &'t str,
    ) -> Result<EntryTokens<'t>, ScanError>
        ensures tokens { IfOk result (λ found. (entries : List ScanEntry) → IsScannerOf self.now.prepared.scanner entries
            → AreTokensOf entries (chars text.now) (map token_view found.tokens.items)) }
        ensures entries { IfOk result (λ found.
            AreEntriesOf self.now.prepared.scanner found.tokens.items found.entries.items) }
        ensures no_token { IfErr result (λ error. (entries : List ScanEntry) → IsScannerOf self.now.prepared.scanner entries
            → TellsNoToken entries (chars text.now) error) }
    {
        self.prepared.scanner().scan_entries(alloc, text)
    }
}
