//! What is given the tokens of a text.

use lalrpop_grammar_symbols::{Span, TerminalString};
use std::alloc::AllocError;

/// Is given tokens, one after the other.
pub trait TokenReceiver {
    ghost use Rattle.std.specs.Prelude.{◌++◌, ◌∷◌, [], List, OnOk};
    ghost use Rattle.lalrpop_grammar.specs.Trees.{Token};
    ghost use Rattle.lalrpop_grammar_symbols.specs.Views.{span_view, terminal_view};

    /// It was given these tokens.
    ghost has_received: { Self → List Token → Type 0 };

    /// Is given one more token: its terminal, its text, and the bytes from which to which it stands.
    ///
    /// # Errors
    ///
    /// Memory is refused.
    fn receive(
        &mut self,
        terminal: &TerminalString,
        text: &str,
        span: Span,
    ) -> Result<(), AllocError>
        ensures { OnOk result ((tokens : List Token) → has_received self.old tokens
            → has_received self.new (tokens
            ++ record { terminal = terminal_view terminal.now; text = text.now; span = span_view span } ∷ [])) };
}
