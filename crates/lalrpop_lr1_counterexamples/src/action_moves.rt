//! Half of a counterexample, by its action: the moves of a whole sentence in which a state takes one of the actions of a
//! conflict.
//!
//! `ActionMoves` in `specs/` says which moves show an action.

mod action;

pub use crate::shown_moves::{AnyCompletion, NextCompletion, with_reduction};
pub use action::action_moves;
