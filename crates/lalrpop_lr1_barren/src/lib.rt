//! Barren nonterminals: whether a start reaches one that has no finite tree, and the least of these by name.
//!
//! `LeastBarren` in `specs/` says which one it is. The names with trees, and those that are reached, are least sets, which
//! `reachable` finds.
#![tactic(auto)]

mod least;
pub mod reachable;

pub use least::{barren_nonterminal, none_is_barren};
