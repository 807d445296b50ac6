//! The terminal of an entry, with the entry's number.

ghost use Rattle.std.specs.Prelude.{◌≡◌, Some, option_map, slice_get};
ghost use Rattle.lalrpop_grammar_symbols.specs.Views.{terminal_view};
ghost use Rattle.lalrpop_lexer_scan.specs.declared.scanner.Scanner.{Scanner};
ghost use Rattle.lalrpop_lexer_scan.specs.Scanning.{IsItsTerminal, found_terminal_view};

use lalrpop_grammar_symbols::TerminalString;

/// The number of an entry that isn't a skip, and its terminal.
#[derive(Clone, Copy)]
pub(crate) struct EntryTerminal<'s> {
    /// The entry's number.
    pub(crate) number: usize,
    /// Its terminal.
    pub(crate) terminal: &'s TerminalString,
}

/// The entry's terminal with its number, where it isn't a skip.
pub(crate) fn with_number(
    number: usize,
    terminal: &Option<TerminalString>,
) -> Option<EntryTerminal<'_>>
    ensures terminal { found_terminal_view result ≡ option_map terminal_view terminal.now }
    ensures entry { (scanner : Scanner) → slice_get scanner.terminals.items number ≡ Some terminal.now
        → IsItsTerminal scanner result }
{
    match terminal {
        Some(terminal) => Some(EntryTerminal { number, terminal }),
        None => None,
    }
}
