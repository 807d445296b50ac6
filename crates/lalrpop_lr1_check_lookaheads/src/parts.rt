//! Parts of the test of states: how items follow edges, and by what states reduce.
//!
//! Each call answers true exactly where its clause holds, for any states. `StateListing` has the items and the edges of states,
//! listed once. In `specs/`, `ListedItems` and `SeenEdges` say which items and edges states have, `Moves` how items follow edges,
//! `Reductions` by what states may reduce, `ApartSets` when reductions share no token, and `CheckedTests` which tests states pass
//! that may be parsed with.

mod conflicts;
mod edges;
mod laws;
mod listed;
mod listing;
mod moving;
mod reducing;

pub use laws::checked_are_passed;
pub use listing::StateListing;
pub use reducing::{end_rightly, have_no_conflict};
