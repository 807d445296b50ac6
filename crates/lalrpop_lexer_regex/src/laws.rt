//! Laws of the syntax.

ghost use Rattle.std.specs.Prelude.{ℕ, List};
ghost use Rattle.lalrpop_lexer_regex.specs.Escaping.{escape_word, IsReadAs};

/// A law of the syntax: a word in which each special character has a backslash in front is read back to that word.
///
/// What is read matches the word that [`lalrpop_lexer_pattern::parse_literal`] makes a pattern of, and nothing else.
pub fn escapes_are_read_back()
    ensures { (word : List ℕ) → IsReadAs (escape_word word) word }
{}
