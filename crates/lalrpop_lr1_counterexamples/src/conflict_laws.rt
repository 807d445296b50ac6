//! Laws of the conflicts of canonical states: each one that is told stands there, and has a counterexample.
//!
//! The module has no code but laws. In `specs/`, `StandingConflicts` says what a conflict is over items, lookaheads and edges, and `ConflictLaws` what
//! the laws say.

ghost use Rattle.lalrpop_lr1_counterexamples.specs.ConflictLaws.{StandingConflictsHaveMoves, ToldConflictsStand};

/// The law that each conflict which is told of canonical states stands there, before the least token of its lookahead.
pub fn told_conflicts_stand()
    ensures { ToldConflictsStand }
{}

/// The law that moves show each conflict which stands in canonical states, where nothing is barren.
pub fn standing_conflicts_have_moves()
    ensures { StandingConflictsHaveMoves }
{}

pub use crate::conflict_moves::{ConflictMoves, conflict_moves};
