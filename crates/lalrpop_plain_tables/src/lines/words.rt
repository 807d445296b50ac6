//! The words of a line, and the symbols that they spell.

ghost use Rattle.std.specs.Prelude.{◌≡◌, ◌↔◌, ◌≤◌, ◌<◌, IfNone, IfOk, IsTrue, OnOk};
ghost use Rattle.std.specs.List.{All, list_all};
ghost use Rattle.std.specs.Str.{IsCharBoundary};
ghost use Rattle.lalrpop_plain_tables.specs.Words.{IsQuotedText, IsSymbolText, IsWordAt, IsWordOf, is_name_byte, is_name_text, quotes_behind};
ghost use Rattle.lalrpop_plain_tables.specs.declared.lines.words.Quotes.TheVariants.{Outside};

use lalrpop_grammar_repr::Symbol;
use lalrpop_grammar_symbols::{Atom, NonterminalString, TerminalString};
use serde_json::Value;
use std::alloc::{AllocError, Global};

/// What a word may be read as, or want of memory.
pub(crate) type Read<T> = Result<Option<T>, AllocError>;

/// Whether a character stands in a quoted terminal.
#[derive(Clone, Copy)]
pub(crate) enum Quotes {
    Outside,
    Inside,
    /// Inside, behind a backslash.
    Escaped,
}

/// Whether the character behind this one stands in a quoted terminal.
fn behind(quotes: Quotes, c: u8) -> Quotes
    ensures { result ≡ quotes_behind quotes c }
{
    match (quotes, c) {
        (Quotes::Outside, b'"') => Quotes::Inside,
        (Quotes::Outside, _) => Quotes::Outside,
        (Quotes::Inside, b'"') => Quotes::Outside,
        (Quotes::Inside, b'\\') => Quotes::Escaped,
        (Quotes::Inside, _) => Quotes::Inside,
        (Quotes::Escaped, _) => Quotes::Inside,
    }
}

/// Whether it is a blank outside of quotes.
fn is_free_blank(quotes: Quotes, c: u8) -> bool
    ensures { IsTrue result ↔ ((c ≡ 32) × (quotes ≡ Outside)) }
{
    match quotes {
        Quotes::Outside => c == b' ',
        Quotes::Inside | Quotes::Escaped => false,
    }
}

/// Puts the part of the text behind the words, unless it is empty.
fn push_word<'t>(
    text: &'t str,
    from: usize,
    to: usize,
    words: &mut Vec<&'t str>,
) -> Result<(), AllocError>
    requires before { IsCharBoundary text.now from }
    requires behind { IsCharBoundary text.now to }
    requires order { from ≤ to }
    requires word { from < to → IsWordAt text.now from to }
    requires words { All (λ w. IsWordOf text.now w.now) words.old.items }
    ensures { OnOk result (All (λ w. IsWordOf text.now w.now) words.new.items) }
{
    if from < to {
        words.push(&text[from..to])?;
    }
    Ok(())
}

/// The words of the text: what stands between blanks outside of quotes.
pub(crate) fn words(alloc: Global, text: &str) -> Result<Vec<&str>, AllocError>
    ensures { IfOk result (λ words. All (λ w. IsWordOf text.now w.now) words.items) }
{
    let mut words = Vec::new(alloc);
    let mut quotes = Quotes::Outside;
    let mut from = 0;
    let bytes = text.as_bytes();
    for at in 0..bytes.len() {
        let c = bytes[at];
        let next = behind(quotes, c);
        if is_free_blank(quotes, c) {
            push_word(text, from, at, &mut words)?;
            from = at + 1;
        }
        quotes = next;
    }
    push_word(text, from, bytes.len(), &mut words)?;
    Ok(words)
}

/// Whether all bytes of the word are letters, digits or underscores.
fn are_name_bytes(word: &str) -> bool
    ensures { result ≡ list_all is_name_byte word.now }
{
    word.as_bytes()
        .iter()
        .all(|b| b.is_ascii_alphanumeric() || *b == b'_')
}

/// Whether the word is a name: letters, digits and underscores.
pub(crate) fn is_name(word: &str) -> bool
    ensures { result ≡ is_name_text word.now }
{
    !word.is_empty() && are_name_bytes(word)
}

/// The text of the terminal that the word quotes.
fn quoted_text(alloc: Global, word: &str) -> Read<Atom>
    ensures { IfOk result (λ text. IfNone text (IsQuotedText word.now → ⊥)) }
{
    if !word.starts_with('"') {
        return Ok(None);
    }
    match Value::from_str(alloc, word) {
        Ok(value) => match value.as_str() {
            Some(text) => Ok(Some(Atom::new(alloc, text)?)),
            None => Ok(None),
        },
        Err(error) if error.is_memory() => Err(AllocError),
        Err(_) => Ok(None),
    }
}

/// The symbol that the word spells.
pub(crate) fn symbol_of(alloc: Global, word: &str) -> Read<Symbol>
    ensures { IfOk result (λ symbol. IfNone symbol (IsSymbolText word.now → ⊥)) }
{
    if is_name(word) {
        let name = NonterminalString(Atom::new(alloc, word)?);
        return Ok(Some(Symbol::Nonterminal(name)));
    }
    match quoted_text(alloc, word)? {
        Some(text) => Ok(Some(Symbol::Terminal(TerminalString::quoted(text)))),
        None => Ok(None),
    }
}
