//! Tokens: terminals, the end of a text, and the token of errors.

ghost use Rattle.std.specs.Prelude.{◌≡◌, IfOk};
ghost use Rattle.lalrpop_sets.specs.Tokens.{IsTerminalToken};
ghost use Rattle.lalrpop_sets.specs.declared.token.Token.TheVariants as token;

use lalrpop_grammar_symbols::TerminalString;
use std::alloc::AllocError;

/// What may come next: a terminal, the end of the text, or an error.
#[derive(PartialEq, Eq, PartialOrd, Ord, Hash, Drop)]
pub enum Token {
    /// The end of the text.
    Eof,
    /// What stands where the text is wrong.
    Error,
    /// A terminal.
    Terminal(TerminalString),
}

/// A token of a set, whose terminal is lent.
#[derive(Clone, Copy, PartialEq, Eq, PartialOrd, Ord, Hash)]
pub enum TokenRef<'s> {
    /// The end of the text.
    Eof,
    /// What stands where the text is wrong.
    Error,
    /// A terminal.
    Terminal(&'s TerminalString),
}

impl Token {
    /// The end of the text, by its older name.
    pub const EOF: Token = Token::Eof;

    /// The end of the text, which is what [`Token::EOF`] is.
    pub fn eof() -> Token
        ensures { result ≡ token.Eof }
    {
        Token::EOF
    }

    /// The terminal of a token that is one.
    pub fn unwrap_terminal(&self) -> &TerminalString
        requires { IsTerminalToken self.now }
        ensures { self.now ≡ token.Terminal result.now }
    {
        match self {
            Token::Terminal(terminal) => terminal,
            Token::Eof | Token::Error => unreachable!(),
        }
    }

    /// A copy that equals it.
    pub fn try_clone(&self) -> Result<Token, AllocError>
        ensures { IfOk result (λ copy. copy ≡ self.now) }
    {
        match self {
            Token::Eof => Ok(Token::Eof),
            Token::Error => Ok(Token::Error),
            Token::Terminal(terminal) => Ok(Token::Terminal(terminal.try_clone()?)),
        }
    }
}
