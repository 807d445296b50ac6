//! The lines of a text's tokens, written as the tokens come.

ghost use Rattle.std.specs.Prelude.{◌≡◌, ◌++◌, OnOk, [], string_bytes};
ghost use Rattle.lalrpop_grammar_symbols.specs.Views.{span_view, terminal_view};
ghost use Rattle.lalrpop_run.specs.ReplyTexts.{line, token_text, tokens_text};

use lalrpop_grammar::{Span, TerminalString};
use lalrpop_json_grammar::JsonText;
use lalrpop_lexer_scan::TokenReceiver;
use std::alloc::{AllocError, Global};

/// A line for each token that it was given: from which byte to which byte it stands, its terminal, and its text as a JSON string.
#[derive(Drop)]
pub struct TokenLines {
    text: String,
}

impl TokenLines {
    /// No lines.
    pub fn new(alloc: Global) -> TokenLines
        ensures { string_bytes result.text ≡ [] }
    {
        TokenLines {
            text: String::new(alloc),
        }
    }

    /// The lines, each with a line feed.
    pub fn into_text(self) -> String
        ensures { result ≡ self.text }
    {
        let TokenLines { text } = self;
        text
    }
}

impl TokenReceiver for TokenLines {
    ghost use Rattle.std.specs.Prelude.{◌≡◌, string_bytes};
    ghost use Rattle.lalrpop_run.specs.ReplyTexts.{tokens_text};

    ghost has_received = { λ lines tokens. string_bytes lines.text ≡ tokens_text tokens };

    fn receive(
        &mut self,
        terminal: &TerminalString,
        text: &str,
        span: Span,
    ) -> Result<(), AllocError> {
        write_line(terminal, text, span, &mut self.text)?;
        Ok(())
    }
}

/// Writes the line of a token.
fn write_line(
    terminal: &TerminalString,
    text: &str,
    span: Span,
    lines: &mut String,
) -> Result<(), AllocError>
    ensures { OnOk result (string_bytes lines.new ≡ string_bytes lines.old
        ++ line (token_text (record { terminal = terminal_view terminal.now; text = text.now; span = span_view span }))) }
{
    writeln!(
        lines,
        "{}..{} {terminal} {}",
        span.0,
        span.1,
        JsonText(text)
    )?;
    Ok(())
}
