//! The scanner of a tokenizer's entries.

ghost use Rattle.std.specs.Prelude.{◌≡◌, List, is_some, map, option_map};
ghost use Rattle.std.specs.List.{list_all};
ghost use Rattle.lalrpop_grammar_symbols.specs.Views.{terminal_view};
ghost use Rattle.lalrpop_lexer.specs.Simulation.{Decides};
ghost use Rattle.lalrpop_lexer_scan.specs.Entries.{ScanEntry, patterns, precedences};
ghost use Rattle.lalrpop_lexer_scan.specs.Scanning.{IsScannerOf};
ghost use Rattle.lalrpop_lexer_scan.specs.Tokens.{terminal_unless_skip};

use lalrpop_grammar_symbols::TerminalString;
use lalrpop_lexer::dfa::Dfa;

/// Cuts texts into tokens.
#[derive(Drop)]
pub struct Scanner {
    // Which entry a text begins with.
    pub(crate) dfa: Dfa,
    // For each entry the terminal of its pieces, none where they are skipped.
    pub(crate) terminals: Vec<Option<TerminalString>>,
    // Whether whitespace is skipped, as it is where no entry is a skip.
    pub(crate) skips_blanks: bool,
}

impl Scanner {
    /// The scanner of entries. `dfa` is their automaton: it decides their patterns by their precedences. `terminals` has for each
    /// entry the terminal of its pieces, none where they are skipped. Where no entry is skipped, whitespace is.
    pub fn new(dfa: Dfa, terminals: Vec<Option<TerminalString>>) -> Scanner
        ensures { (entries : List ScanEntry) → Decides dfa (patterns entries) (precedences entries)
            → map (option_map terminal_view) terminals.items ≡ map terminal_unless_skip entries
            → IsScannerOf result entries }
    {
        let skips_blanks = have_terminals(&terminals);
        Scanner {
            dfa,
            terminals,
            skips_blanks,
        }
    }

    /// For each entry, at its number, the terminal of its pieces, none where they are skipped.
    pub fn terminals(&self) -> &[Option<TerminalString>]
        ensures { result.now ≡ self.now.terminals.items }
    {
        self.terminals.as_slice()
    }
}

/// Whether each entry has a terminal.
fn have_terminals(terminals: &[Option<TerminalString>]) -> bool
    ensures { result ≡ list_all is_some terminals.now }
{
    terminals.iter().all(|terminal| terminal.is_some())
}
