//! Written trees taken apart.
//!
//! `parts_by_action` gives the trees that an action's label keeps of a tree: it undoes what making the tree of a node did. `KeptTrees` in
//! `specs/` says which they are.

mod comparing;
mod recorded;
mod taking;
mod tree_part;

pub use recorded::parts_by_action;
pub use tree_part::{Piece, TreePart};
