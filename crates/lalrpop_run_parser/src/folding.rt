//! Written trees and the trees over productions that they stand for, in both directions.
//!
//! `fold` searches, from the start down, for the production whose label takes the written tree apart into trees of its symbols, first by the
//! one that the tree's choices look like; `unfold` puts the written tree together by the labels that actions tell, in the order of the
//! tree's moves. `Foldings` in `specs/` says which tree is whose, `Folds` and `PassingRanks` what the search goes by.
//! `foldings_are_inverse` is the law that each undoes the other.

mod fold_error;
mod folder;
mod laws;
mod likely;
mod tree_folding;
mod tree_unfolding;

pub use fold_error::FoldError;
pub use lalrpop_run_prepare::Prepared;
pub use laws::foldings_are_inverse;
pub use tree_folding::fold;
pub use tree_unfolding::unfold;
