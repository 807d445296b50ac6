//! JSON values as a text spells them, in little memory: keys and strings are lent by the text.
//!
//! They stand for the same data as `serde_json`'s own values. `DocumentViews` in `specs/` says which data a value stands for.
#![tactic(auto)]

mod lending;
pub mod reader;
mod value;

pub use lending::lend_value;
pub use value::{JsonValue, Members};
