//! Which spans have a spelling, and the JSON values of spans and of texts.

ghost use Rattle.std.specs.Prelude.{◌≡◌, ◌↔◌, IfOk, IsTrue};
ghost use Rattle.serde_json.specs.Data.{string};
ghost use Rattle.serde_json.specs.View.{view};
ghost use Rattle.lalrpop_json_values.specs.Spelled.{IsSpan, option_json, span_json};

use lalrpop_grammar_symbols::{Atom, Span};
use serde_json::{Value, json};
use std::alloc::{AllocError, Global};

/// The largest number that a span has.
const LARGEST: usize = 0xffff_ffff;

/// Whether the span has a spelling.
pub fn is_readable_span(span: Span) -> bool
    ensures { IsTrue result ↔ IsSpan span }
{
    span.0 <= span.1 && span.1 <= LARGEST
}

/// The span as a list of two numbers.
pub fn span_value(alloc: Global, span: Span) -> Result<Value, AllocError>
    ensures { IfOk result (λ value. view value ≡ span_json span) }
{
    json!(in alloc; [span.0, span.1])
}

/// The text, or `null`.
pub(crate) fn optional_text_value(alloc: Global, text: &Option<Atom>) -> Result<Value, AllocError>
    ensures { IfOk result (λ value. view value ≡ option_json string text.now) }
{
    match text {
        None => Ok(Value::Null),
        Some(text) => Value::try_from_str(alloc, text.as_str()),
    }
}
