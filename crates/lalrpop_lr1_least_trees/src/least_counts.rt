//! Least trees by rules over numbers: how many leaves and nodes they have, which rules stand at their roots, and the moves that
//! build them.
//!
//! Symbols are numbers: names below a count, then terminals. In `specs/`, `NumberedTrees` says which moves build trees, `LeastTrees`
//! what a table of least trees says.

mod counts;
mod least;
mod moves;
mod rule;
mod uses;
mod waiting;

pub use counts::LeastTree;
pub use least::least_trees;
pub use moves::least_moves;
pub use rule::{NumberMove, Rule};
pub use uses::empty_lists;
