//! How wide names and terminals are printed.

use lalrpop_grammar_symbols::{NonterminalString, TerminalString};

/// What is printed in a column of a report.
pub trait HasDisplayLen {
    ghost use Rattle.std.specs.Prelude.{◌≡◌};
    ghost use Rattle.lalrpop_grammar_symbols.specs.Symbols.{Text};
    ghost use Rattle.lalrpop_lane_report.specs.Reports.{printed_length};

    // What is printed.
    ghost printed: { Self → Text };

    /// How many bytes the printed text has, or `usize::MAX` where they are more.
    fn display_len(&self) -> usize
        ensures { result ≡ printed_length (printed self.now) };
}

impl HasDisplayLen for TerminalString {
    ghost use Rattle.lalrpop_grammar_symbols.specs.Texts.{terminal_text};
    ghost use Rattle.lalrpop_grammar_symbols.specs.Views.{terminal_view};

    ghost printed = { λ t. terminal_text (terminal_view t) };

    fn display_len(&self) -> usize {
        TerminalString::display_len(self)
    }
}

impl HasDisplayLen for NonterminalString {
    ghost printed = { λ n. n.0 };

    fn display_len(&self) -> usize {
        self.0.as_str().len()
    }
}
