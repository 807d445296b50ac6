//! Conflicts as they are told: with the trees of the written grammar, three lines each.
//!
//! In `specs/`, `WrittenConflicts` says which conflicts certificates stand for, and `ConflictTexts` what is written.

mod texts;
mod unfolding;
mod written_conflict;

pub use crate::folding::{FoldError, fold, foldings_are_inverse, unfold};
pub use texts::write_conflicts;
pub use unfolding::written_conflicts;
pub use written_conflict::{WrittenConflict, WrittenMove};
