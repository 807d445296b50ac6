//! Values of `serde_json` as values of a document, which borrow their texts.

ghost use Rattle.std.specs.Prelude.{◌≡◌, IfOk};
ghost use Rattle.serde_json.specs.View as owned;
ghost use Rattle.lalrpop_json_document.specs.DocumentViews.{items_view, members_view, view};

use crate::value::{JsonValue, Members};
use serde_json::{Map, Value};
use std::alloc::{AllocError, Global};

/// The same value, its keys and strings lent.
///
/// # Errors
///
/// Memory is refused.
#[cycle(lending)]
pub fn lend_value<'t>(alloc: Global, value: &'t Value) -> Result<JsonValue<'t>, AllocError>
    ensures { IfOk result (λ lent. view lent ≡ owned.view value.now) }
{
    match value {
        Value::Null => Ok(JsonValue::Null),
        Value::Bool(flag) => Ok(JsonValue::Bool(*flag)),
        Value::Number(number) => Ok(JsonValue::Number(*number)),
        Value::String(text) => Ok(JsonValue::String(text.as_str())),
        Value::Array(items) => {
            let lent = lend_items(alloc, items.as_slice())?;
            Ok(JsonValue::Array(lent))
        }
        Value::Object(members) => {
            let lent = lend_members(alloc, members)?;
            Ok(JsonValue::Object(lent))
        }
    }
}

/// The same values.
#[cycle(lending)]
fn lend_items<'t>(alloc: Global, items: &'t [Value]) -> Result<Vec<JsonValue<'t>>, AllocError>
    ensures { IfOk result (λ lent. items_view lent.items ≡ owned.items_view items.now) }
{
    let mut lent = Vec::new(alloc);
    for item in items {
        lent.push(lend_value(alloc, item)?)?;
    }
    Ok(lent)
}

/// The same members.
#[cycle(lending)]
#[tactic(auto, using(crate::proofs::LendingLemmas::lending))]
fn lend_members<'t>(
    alloc: Global,
    members: &'t Map<String, Value>,
) -> Result<Members<'t>, AllocError>
    ensures { IfOk result (λ lent. members_view lent.items ≡ owned.members_view members.now.entries) }
{
    let mut lent = Vec::new(alloc);
    for (key, value) in members.iter() {
        let member = lend_value(alloc, value)?;
        lent.push((key.as_str(), member))?;
    }
    Ok(lent)
}
