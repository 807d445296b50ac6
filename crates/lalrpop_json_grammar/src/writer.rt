//! Grammars as JSON values: writing the one value that spells a grammar.
//!
//! What spells a grammar, and which grammars have a spelling, stands as definitions in the crates of the reader.

mod fault;
mod grammar;

pub use fault::WriteError;
pub use grammar::write_grammar;
