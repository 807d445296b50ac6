//! The printed texts of terminals.

ghost use Rattle.std.specs.Prelude.{◌≡◌, ◌++◌, ◌<◌, IfOk, OnOk, OnErr, Some, string_bytes, encode_utf8, length, min};
ghost use Rattle.std.specs.Prelude.{ℕ, List, false};
ghost use Rattle.std.specs.Fmt.{WritesOnOk};
ghost use Rattle.std.specs.Char.{digit_char};
ghost use Rattle.lalrpop_grammar_symbols.specs.Views.{literal_view, terminal_view};
ghost use Rattle.lalrpop_grammar_symbols.specs.Texts.{escape_byte, escape, code_text, terminal_text};

use crate::terminal::{TerminalLiteral, TerminalString};
use std::alloc::{AllocError, Global};
use std::fmt::{self, Display, Formatter, Write};

impl TerminalString {
    /// The printed text: a literal's text, a bare name as it is, `!` for error recovery.
    pub fn canonical_form(&self, alloc: Global) -> Result<String, AllocError>
        ensures { IfOk result (λ text. string_bytes text ≡ terminal_text (terminal_view self.now)) }
    {
        self.to_string(alloc)
    }

    /// Appends the printed text. Where memory is refused, `out` is as before.
    pub fn write_text(&self, alloc: Global, out: &mut String) -> Result<(), AllocError>
        ensures ok { OnOk result (string_bytes out.new
            ≡ string_bytes out.old ++ terminal_text (terminal_view self.now)) }
        ensures err { OnErr result (string_bytes out.new ≡ string_bytes out.old) }
    {
        let text = self.canonical_form(alloc)?;
        out.push_str(text.as_str())
    }

    /// How many bytes the printed text has, or `usize::MAX` where they are more.
    pub fn display_len(&self) -> usize
        ensures { result ≡ min (length (terminal_text (terminal_view self.now))) usize.MAX }
    {
        match self {
            TerminalString::Literal(literal) => literal.display_len(),
            TerminalString::Bare(name) => name.as_str().len(),
            TerminalString::Error => 1,
        }
    }
}

impl TerminalLiteral {
    /// The printed text: `"text"` or `r#"pattern"#`. Inside, `\\` and `"` get a `\\` in front; line feed, return and tab
    /// are `\\n`, `\\r` and `\\t`; any other character below a space is `\\u{h}`, its code in hexadecimal.
    pub fn canonical_form(&self, alloc: Global) -> Result<String, AllocError>
        ensures { IfOk result (λ text. string_bytes text ≡ terminal_text (literal_view self.now)) }
    {
        self.to_string(alloc)
    }

    /// Appends the printed text. Where memory is refused, `out` is as before.
    pub fn write_text(&self, alloc: Global, out: &mut String) -> Result<(), AllocError>
        ensures ok { OnOk result (string_bytes out.new
            ≡ string_bytes out.old ++ terminal_text (literal_view self.now)) }
        ensures err { OnErr result (string_bytes out.new ≡ string_bytes out.old) }
    {
        let text = self.canonical_form(alloc)?;
        out.push_str(text.as_str())
    }

    /// How many bytes the printed text has, or `usize::MAX` where they are more.
    pub fn display_len(&self) -> usize
        ensures { result ≡ min (length (terminal_text (literal_view self.now))) usize.MAX }
    {
        match self {
            TerminalLiteral::Quoted(text) => escaped_len(text.as_str()).saturating_add(2),
            TerminalLiteral::Regex(pattern) => escaped_len(pattern.as_str()).saturating_add(5),
        }
    }
}

impl Display for TerminalString {
    ghost output = { λ t. Some (terminal_text (terminal_view t)) };

    fn fmt<W: Write>(&self, f: &mut Formatter<W>) -> fmt::Result {
        match self {
            TerminalString::Literal(literal) => literal.fmt(f),
            TerminalString::Bare(name) => f.write_str(name.as_str()),
            TerminalString::Error => f.write_str("!"),
        }
    }
}

impl Display for TerminalLiteral {
    ghost output = { λ l. Some (terminal_text (literal_view l)) };

    fn fmt<W: Write>(&self, f: &mut Formatter<W>) -> fmt::Result {
        match self {
            TerminalLiteral::Quoted(text) => {
                f.write_str("\"")?;
                write_escaped(text.as_str(), f)?;
                f.write_str("\"")
            }
            TerminalLiteral::Regex(pattern) => {
                f.write_str("r#\"")?;
                write_escaped(pattern.as_str(), f)?;
                f.write_str("\"#")
            }
        }
    }
}

/// Whether the character is written in another way inside a literal.
fn is_escaped(c: char) -> bool
    ensures { result ≡ false → escape (encode_utf8 c) ≡ encode_utf8 c }
{
    match c {
        '"' => true,
        '\\' => true,
        '\0'..='\u{1f}' => true,
        _ => false,
    }
}

/// The text without what is left of it.
fn before<'t>(text: &'t str, rest: &str) -> &'t str
    requires { (front : List ℕ) × (text.now ≡ front ++ rest.now) }
    ensures { text.now ≡ result.now ++ rest.now }
{
    &text[..text.len() - rest.len()]
}

/// The longest front of the text whose characters are all written as they are.
fn plain_front(text: &str) -> &str
    ensures front { (rest : List ℕ) × (text.now ≡ result.now ++ rest) }
    ensures plain { escape result.now ≡ result.now }
{
    let mut rest = text;
    let mut left = text.chars();
    while let Some(c) = left.next() {
        if is_escaped(c) {
            return before(text, rest);
        }
        rest = left.as_str();
    }
    text
}

/// Writes what stands for the text inside a literal; what is written as it is, at once.
fn write_escaped<W: Write>(text: &str, f: &mut Formatter<W>) -> fmt::Result
    ensures { WritesOnOk W.write_str_gives f.old result (escape text.now) f.new }
{
    let mut rest = text;
    'rest: while !rest.is_empty() {
        let plain = plain_front(rest);
        f.write_str(plain)?;
        rest = &rest[plain.len()..];
        let mut left = rest.chars();
        if let Some(c) = left.next() {
            write_escaped_char(c, f)?;
            rest = left.as_str();
        }
    }
    Ok(())
}

fn write_escaped_char<W: Write>(c: char, f: &mut Formatter<W>) -> fmt::Result
    ensures { WritesOnOk W.write_str_gives f.old result (escape (encode_utf8 c)) f.new }
{
    match c {
        '"' => f.write_str("\\\""),
        '\\' => f.write_str("\\\\"),
        '\n' => f.write_str("\\n"),
        '\r' => f.write_str("\\r"),
        '\t' => f.write_str("\\t"),
        '\0'..='\u{1f}' => write_code(c as u32, f),
        _ => f.write_char(c),
    }
}

fn write_code<W: Write>(code: u32, f: &mut Formatter<W>) -> fmt::Result
    requires { code < 32 }
    ensures { WritesOnOk W.write_str_gives f.old result (code_text code) f.new }
{
    f.write_str("\\u{")?;
    if code >= 16 {
        f.write_char(hex_digit(code / 16))?;
    }
    f.write_char(hex_digit(code % 16))?;
    f.write_str("}")
}

fn hex_digit(n: u32) -> char
    requires { n < 16 }
    ensures { result ≡ digit_char n }
{
    if n < 10 {
        (b'0' + n as u8) as char
    } else {
        (b'a' + (n as u8 - 10)) as char
    }
}

fn escaped_len(text: &str) -> usize
    ensures { result ≡ min (length (escape text.now)) usize.MAX }
{
    let mut len = 0usize;
    for byte in text.as_bytes() {
        len = len.saturating_add(escaped_byte_len(*byte));
    }
    len
}

#[tactic(auto, unfolding(crate::specs::Texts::escape_byte))]
fn escaped_byte_len(byte: u8) -> usize
    ensures { result ≡ length (escape_byte byte) }
{
    match byte {
        b'"' | b'\\' | b'\n' | b'\r' | b'\t' => 2,
        0..=15 => 5,
        16..=31 => 6,
        _ => 1,
    }
}
