//! Whitespace at the front of a text.

ghost use Rattle.std.specs.Prelude.{◌≡◌, take, encode_utf8_all};
ghost use Rattle.std.specs.Str.{chars};
ghost use Rattle.lalrpop_lexer_scan.specs.Pieces.{blanks};

/// The longest run of whitespace at the front of the text.
pub(crate) fn blank_front(text: &str) -> &str
    ensures { result.now ≡ encode_utf8_all (take (blanks (chars text.now)) (chars text.now)) }
{
    let rest = text.trim_start();
    &text[..text.len() - rest.len()]
}
