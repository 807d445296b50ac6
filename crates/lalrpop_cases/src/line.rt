//! What lines have to be like.

use anyhow::Result;
use lalrpop_case_kinds::files::fields::{Fields, Form, Key};
use serde_json::Value;

/// What may be said of a line.
const KEYS: [Key; 3] = [
    ("is", Form::Text),
    ("begins", Form::Text),
    ("ends", Form::Text),
];

/// Whether the line is what it has to be, and begins and ends with what it has to. What is left out says nothing.
fn fits(wanted: &Value, line: &str) -> Result<bool> {
    let fields = Fields::of(wanted, &[], &KEYS)?;
    let is = fields.text_if("is").unwrap_or(line) == line;
    let begins = line.starts_with(fields.text("begins"));
    let ends = line.ends_with(fields.text("ends"));
    Ok(is & begins & ends)
}

/// Whether the text is just lines like these, each with a line feed.
pub(crate) fn fit(lines: &[Value], text: &str) -> Result<bool> {
    let mut left = text;
    for wanted in lines {
        match left.split_once('\n') {
            Some((line, rest)) if fits(wanted, line)? => left = rest,
            _ => return Ok(false),
        }
    }
    Ok(left.is_empty())
}
