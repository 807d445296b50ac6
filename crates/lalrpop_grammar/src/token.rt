//! Tokens of a text.

ghost use Rattle.std.specs.Prelude.{◌≡◌, IfOk};

use lalrpop_grammar_symbols::{Span, TerminalString};
use std::alloc::AllocError;

/// A token of a text.
#[derive(PartialEq, Eq, Drop)]
pub struct ScanToken<'t> {
    /// Its terminal.
    pub terminal: TerminalString,
    /// The piece of the text.
    pub text: &'t str,
    /// From which byte to which byte of the text it stands.
    pub span: Span,
}

impl<'t> ScanToken<'t> {
    /// A copy that equals it.
    pub fn try_clone(&self) -> Result<ScanToken<'t>, AllocError>
        ensures { IfOk result (λ copy. copy ≡ self.now) }
    {
        Ok(ScanToken {
            terminal: self.terminal.try_clone()?,
            text: self.text,
            span: self.span,
        })
    }
}
