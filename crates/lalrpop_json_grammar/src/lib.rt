//! Grammars and parse trees as JSON: reading them, with the first fault of a value that spells none.
//!
//! What reading gives stands as definitions over the JSON value in `specs/`, beside the one JSON value that spells each
//! grammar and each tree.
#![tactic(auto)]

pub mod fault_law;
mod grammar;
mod laws;
pub mod print_law;
mod printing;
mod tree;
pub mod writer;

pub use grammar::{grammar_of_document, read_grammar};
pub use lalrpop_json_values::{Fault, FaultKind, JsonText, Key, PathText, ReadError, Step};
pub use laws::{grammar_laws, tree_laws};
pub use printing::{TreeText, print_tree};
pub use tree::{read_tree, tree_of_document};
