//! Texts as JSON.

ghost use Rattle.std.specs.Prelude.{IfOk};
ghost use Rattle.lalrpop_run.specs.Inputs.{SpelledBy};

use json::Scratch;
use lalrpop_json_document::JsonValue;
use lalrpop_json_document::reader::read_document;
use std::alloc::{AllocError, Global};

/// The value that the text spells, where it is JSON. Its strings are lent by the text, or by `scratch` where they are escaped.
pub(crate) fn value_of_text<'t>(
    alloc: Global,
    text: &'t str,
    scratch: &'t mut Scratch,
) -> Result<Option<JsonValue<'t>>, AllocError>
    ensures { IfOk result (SpelledBy text.now) }
{
    read_document(alloc, text, scratch)
}
