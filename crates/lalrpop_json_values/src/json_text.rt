//! Texts as JSON strings.

ghost use Rattle.std.specs.Prelude.{◌≡◌, ◌<◌, Some, encode_utf8};
ghost use Rattle.std.specs.Fmt.{WritesOnOk};
ghost use Rattle.std.specs.List.{list_all};
ghost use Rattle.json.specs.Print.{escape, escape_byte};
ghost use Rattle.lalrpop_json_values.specs.JsonText.{json_text, stands};

use std::fmt::{self, Display, Formatter, Write};

/// A text that is printed as a JSON string: in quotes and with JSON's escapes.
#[derive(Clone, Copy)]
pub struct JsonText<'t>(pub &'t str);

impl Display for JsonText<'_> {
    ghost output = { λ t. Some (json_text t.0.now) };

    fn fmt<W: Write>(&self, f: &mut Formatter<W>) -> fmt::Result {
        f.write_str("\"")?;
        write_escaped(self.0, f)?;
        f.write_str("\"")
    }
}

/// Writes what stands for the text between the quotes. Most texts stand there as they are.
fn write_escaped<W: Write>(text: &str, f: &mut Formatter<W>) -> fmt::Result
    ensures { WritesOnOk W.write_str_gives f.old result (escape text.now) f.new }
{
    if needs_no_escape(text) {
        f.write_str(text)
    } else {
        write_escaped_chars(text, f)
    }
}

/// Whether no byte of the text has an escape in JSON.
fn needs_no_escape(text: &str) -> bool
    ensures { result ≡ list_all stands text.now }
{
    for byte in text.as_bytes() {
        if *byte < b' ' || *byte == b'"' || *byte == b'\\' {
            return false;
        }
    }
    true
}

fn write_escaped_chars<W: Write>(text: &str, f: &mut Formatter<W>) -> fmt::Result
    ensures { WritesOnOk W.write_str_gives f.old result (escape text.now) f.new }
{
    for c in text.chars() {
        write_escaped_char(c, f)?;
    }
    Ok(())
}

fn write_escaped_char<W: Write>(c: char, f: &mut Formatter<W>) -> fmt::Result
    ensures { WritesOnOk W.write_str_gives f.old result (escape (encode_utf8 c)) f.new }
{
    match c {
        '"' => f.write_str("\\\""),
        '\\' => f.write_str("\\\\"),
        '\0'..='\u{1f}' => write_control(c as u8, f),
        _ => f.write_char(c),
    }
}

/// Writes the escape of a control character: by its letter, where it has one, else by its code.
fn write_control<W: Write>(code: u8, f: &mut Formatter<W>) -> fmt::Result
    requires { code < 32 }
    ensures { WritesOnOk W.write_str_gives f.old result (escape_byte code) f.new }
{
    match code {
        8 => f.write_str("\\b"),
        b'\t' => f.write_str("\\t"),
        b'\n' => f.write_str("\\n"),
        12 => f.write_str("\\f"),
        b'\r' => f.write_str("\\r"),
        _ => write!(f, "\\u00{code:02x}"),
    }
}
