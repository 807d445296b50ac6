//! Patterns as they are read, and their faults.

use crate::files::fields::text_of;
use anyhow::Result;
use lalrpop_lexer_regex::{RegexError, parse_regex};
use serde_json::Value;
use std::alloc::{AllocError, Global};

/// The tree of the pattern that the text is, as `Debug` prints it, or the text of its fault.
pub(crate) fn regex_tree(alloc: Global, of: &Value) -> Result<Value> {
    Ok(tree_or_fault(alloc, text_of(of)?)?)
}

/// The text of the fault of the pattern that the text is, `null` where it has none.
pub(crate) fn regex_fault(alloc: Global, of: &Value) -> Result<Value> {
    Ok(fault_or_null(alloc, text_of(of)?)?)
}

fn tree_or_fault(alloc: Global, pattern: &str) -> Result<Value, AllocError> {
    match parse_regex(alloc, pattern) {
        Ok(tree) => Ok(Value::from(format!(in alloc; "{tree:?}")?)),
        Err(error) => fault_value(alloc, error),
    }
}

fn fault_or_null(alloc: Global, pattern: &str) -> Result<Value, AllocError> {
    match parse_regex(alloc, pattern) {
        Ok(_) => Ok(Value::Null),
        Err(error) => fault_value(alloc, error),
    }
}

/// The text of the fault.
fn fault_value(alloc: Global, error: RegexError) -> Result<Value, AllocError> {
    Ok(Value::from(format!(in alloc; "{error}")?))
}
