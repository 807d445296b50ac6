//! Keys, that is closed symbols that have a rule of their own once macros are expanded: which of them stand in a symbol, what
//! each is called, and a table of them.
//!
//! A key is found by its text, and then among the few keys of that text.

mod key_table;
mod same;
mod standing;
mod texts;

pub use key_table::KeyTable;
pub use same::same_symbol;
pub use standing::{calls_in_symbols, keys_in_symbols};
pub use texts::key_text;
