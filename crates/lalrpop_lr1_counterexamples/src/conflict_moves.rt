//! The moves of a counterexample: those on the path to the conflict's state, and those of two whole trees in which its reduction
//! and its other action are done.
//!
//! `ConflictMoves` in `specs/` says what they show.

mod conflict;

pub use conflict::{ConflictMoves, conflict_moves};
