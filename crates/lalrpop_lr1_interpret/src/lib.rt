//! Interpreting states: the tree of terminals without productions, or the state in which they go wrong.
//!
//! The machine of `parse` runs the table of the states; its stack holds parse trees, or nothing. `Interpretations` in `specs/`
//! says which answers are right.
#![tactic(auto)]

mod interpret_fault;
mod interpreting;
pub mod parse;
mod parse_tree_stack;
pub mod parse_trees;

pub use interpret_fault::{InterpretError, InterpretFault};
pub use interpreting::{interpret, interpret_partial};
