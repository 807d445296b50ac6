//! Written trees of a parse, by the labels that actions tell; and written trees taken apart by these.
#![tactic(auto)]

pub mod flat_labels;
mod records;
pub mod tree_parts;
pub mod written_trees;
