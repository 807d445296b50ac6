//! The texts of tokens and of sets of tokens.

ghost use Rattle.std.specs.Prelude.{◌≡◌, ◌++◌, IfOk, OnOk, Some, string_bytes};
ghost use Rattle.lalrpop_sets.specs.IterLeft.{tokens_to_come};
ghost use Rattle.lalrpop_sets.specs.TokenTexts.{next_text, texts_behind, token_list_text};
ghost use Rattle.lalrpop_sets.specs.TokensLeft.{token_seen, tokens_of};

use crate::token::{Token, TokenRef};
use crate::token_set::TokenSet;
use crate::token_set_iter::TokenSetIter;
use lalrpop_grammar_repr::TerminalSet;
use std::alloc::{AllocError, Global};
use std::fmt::{self, Debug, Display, Formatter, Write};

impl Display for Token {
    ghost output = { λ token. Some (next_text token) };

    fn fmt<W: Write>(&self, f: &mut Formatter<W>) -> fmt::Result {
        match self {
            Token::Eof => f.write_str("Eof"),
            Token::Error => f.write_str("Error"),
            Token::Terminal(terminal) => Display::fmt(terminal, f),
        }
    }
}

impl<'s> Display for TokenRef<'s> {
    ghost output = { λ token. Some (next_text (token_seen token)) };

    fn fmt<W: Write>(&self, f: &mut Formatter<W>) -> fmt::Result {
        match self {
            TokenRef::Eof => f.write_str("Eof"),
            TokenRef::Error => f.write_str("Error"),
            TokenRef::Terminal(terminal) => Display::fmt(terminal, f),
        }
    }
}

impl Debug for Token {
    ghost debug_output = { λ token. Some (next_text token) };

    fn fmt<W: Write>(&self, f: &mut Formatter<W>) -> fmt::Result {
        Display::fmt(self, f)
    }
}

impl<'s> Debug for TokenRef<'s> {
    ghost debug_output = { λ token. Some (next_text (token_seen token)) };

    fn fmt<W: Write>(&self, f: &mut Formatter<W>) -> fmt::Result {
        Display::fmt(self, f)
    }
}

impl TokenSet {
    /// The text of the tokens of the set, in order: `[x, y]`.
    pub fn shown(&self, alloc: Global, terminals: &TerminalSet) -> Result<String, AllocError>
        ensures { IfOk result (λ text. string_bytes text ≡ token_list_text (tokens_of terminals.now self.now)) }
    {
        let mut tokens = self.iter(terminals);
        let mut text = String::from_str(alloc, "[")?;
        if let Some(first) = tokens.next() {
            push_token(alloc, first, &mut text)?;
            push_behind(alloc, tokens, &mut text)?;
        }
        text.push_str("]")?;
        Ok(text)
    }
}

/// Appends the text of the token.
fn push_token(alloc: Global, token: TokenRef<'_>, text: &mut String) -> Result<(), AllocError>
    ensures { OnOk result (string_bytes text.new ≡ string_bytes text.old ++ next_text (token_seen token.entry)) }
{
    let shown = token.to_string(alloc)?;
    text.push_str(shown.as_str())
}

/// Appends the texts of the tokens that are left, each behind a comma and a blank.
fn push_behind(
    alloc: Global,
    mut tokens: TokenSetIter<'_>,
    text: &mut String,
) -> Result<(), AllocError>
    ensures { OnOk result (string_bytes text.new ≡ string_bytes text.old ++ texts_behind (tokens_to_come tokens.entry)) }
{
    while let Some(token) = tokens.next() {
        text.push_str(", ")?;
        push_token(alloc, token, text)?;
    }
    Ok(())
}
