//! Terminals of a grammar.

ghost use Rattle.std.specs.Prelude.{◌≡◌, IfOk, IfSome, IfNone, None, Some, Option};
ghost use Rattle.lalrpop_grammar_symbols.specs.Items.{base_precedence_of, literal_of};

use crate::atom::Atom;
use std::alloc::AllocError;

/// A literal as it is written: a quoted text, or a regular expression.
#[derive(Debug, PartialEq, Eq, PartialOrd, Ord, Hash)]
pub enum TerminalLiteral {
    /// `"class"`: the text itself.
    Quoted(Atom),
    /// `r"[a-z]+"`: the pattern.
    Regex(Atom),
}

impl Drop for TerminalLiteral {
    /// Drops what it holds: where it is owned, that is one call.
    fn drop(self) {
        match self {
            TerminalLiteral::Quoted(_part) => {}
            TerminalLiteral::Regex(_part) => {}
        }
    }
}

/// What an entry of a match block matches.
pub type MatchSymbol = TerminalLiteral;

/// A terminal of a grammar.
#[derive(Debug, PartialEq, Eq, PartialOrd, Ord, Hash)]
pub enum TerminalString {
    /// A literal that names itself.
    Literal(TerminalLiteral),
    /// A name that a match block or an extern block gives.
    Bare(Atom),
    /// The terminal of error recovery, `!`.
    Error,
}

impl Drop for TerminalString {
    /// Drops what it holds: where it is owned, that is one call.
    fn drop(self) {
        match self {
            TerminalString::Literal(_part) => {}
            TerminalString::Bare(_part) => {}
            TerminalString::Error => {}
        }
    }
}

impl TerminalLiteral {
    /// A copy that equals it.
    pub fn try_clone(&self) -> Result<TerminalLiteral, AllocError>
        ensures { IfOk result (λ copy. copy ≡ self.now) }
    {
        match self {
            TerminalLiteral::Quoted(text) => Ok(TerminalLiteral::Quoted(text.try_clone()?)),
            TerminalLiteral::Regex(text) => Ok(TerminalLiteral::Regex(text.try_clone()?)),
        }
    }

    /// The precedence inside one group of a tokenizer: 1 for a quoted literal, 0 for a regex.
    pub fn base_precedence(&self) -> usize
        ensures { result ≡ base_precedence_of self.now }
    {
        match self {
            TerminalLiteral::Quoted(_) => 1,
            TerminalLiteral::Regex(_) => 0,
        }
    }
}

impl TerminalString {
    ghost use Rattle.lalrpop_grammar_symbols.specs.declared.terminal.TerminalLiteral.TheVariants as literal;
    ghost use Rattle.lalrpop_grammar_symbols.specs.declared.terminal.TerminalString.TheVariants as terminal;
    ghost use Rattle.std.specs.Option.{option_copied};

    /// The terminal of a quoted literal.
    pub fn quoted(text: Atom) -> TerminalString
        ensures { result ≡ terminal.Literal (literal.Quoted text) }
    {
        TerminalString::Literal(TerminalLiteral::Quoted(text))
    }

    /// The terminal of a regular expression.
    pub fn regex(pattern: Atom) -> TerminalString
        ensures { result ≡ terminal.Literal (literal.Regex pattern) }
    {
        TerminalString::Literal(TerminalLiteral::Regex(pattern))
    }

    /// The literal, where it is one.
    pub fn as_literal(&self) -> Option<&TerminalLiteral>
        ensures { option_copied result ≡ literal_of self.now }
    {
        match self {
            TerminalString::Literal(literal) => Some(literal),
            TerminalString::Bare(_) | TerminalString::Error => None,
        }
    }

    /// A copy that equals it.
    pub fn try_clone(&self) -> Result<TerminalString, AllocError>
        ensures { IfOk result (λ copy. copy ≡ self.now) }
    {
        match self {
            TerminalString::Literal(literal) => Ok(TerminalString::Literal(literal.try_clone()?)),
            TerminalString::Bare(name) => Ok(TerminalString::Bare(name.try_clone()?)),
            TerminalString::Error => Ok(TerminalString::Error),
        }
    }
}
