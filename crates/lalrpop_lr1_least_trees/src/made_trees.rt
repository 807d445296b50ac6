//! Trees that are made from their moves, with numbered leaves: least ones, those without leaves, and those that begin with a terminal.
//!
//! `SpanNumbers` in `specs/` says which spans the leaves get, and what moves must be for trees to be made from them.

mod begin;
mod least;
mod making;

pub use begin::begin_tree;
pub use least::{empty_tree, least_tree, only_tree};
pub use making::made_trees;
