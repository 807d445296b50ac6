//! Answers as JSON values.

use serde_json::Value;
use std::alloc::{AllocError, Global};

/// A list of these two.
pub fn pair(alloc: Global, first: Value, second: Value) -> Result<Value, AllocError> {
    Ok(Value::Array(vec![in alloc; first, second]?))
}

/// A list of these three.
pub fn triple(
    alloc: Global,
    first: Value,
    second: Value,
    third: Value,
) -> Result<Value, AllocError> {
    Ok(Value::Array(vec![in alloc; first, second, third]?))
}

/// The number.
pub fn number(of: usize) -> Value {
    Value::from(of)
}

/// The text.
pub fn text(alloc: Global, of: &str) -> Result<Value, AllocError> {
    Value::try_from_str(alloc, of)
}
