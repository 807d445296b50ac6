//! Plain productions read from lines of text; for tests and timing.
//!
//! A line is `NAME: SYMBOL ..`, one production. A symbol is a name or a JSON string, that is a quoted terminal; nothing behind the
//! colon is the empty right side. Symbols are separated by blanks.

mod error;
mod grammar;
mod words;

pub use error::LinesError;
pub use grammar::{read_lines, read_tokens};
