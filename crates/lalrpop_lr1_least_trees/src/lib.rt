//! Least trees of a grammar's nonterminals: how many leaves and nodes they have, the productions at their roots, and the moves that
//! build them; the same of those that have no leaves.
//!
//! In `specs/`, `LeastForests` says what is least among trees, `GrammarTrees` what a table of a grammar's least trees is. Trees are
//! told by their moves: a shift for a leaf, and a reduction for a node behind the moves of its children.
#![tactic(auto)]

pub mod begin_trees;
pub mod least_counts;
mod least_trees;
pub mod made_trees;
mod name_numbers;
pub mod rest_trees;
mod rules;
mod table;
mod tree_move;

pub use least_trees::LeastTrees;
pub use table::{production_at, terminal_at};
pub use tree_move::TreeMove;
