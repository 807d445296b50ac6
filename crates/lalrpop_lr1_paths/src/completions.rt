//! Completions: light moves from behind a tree of a nonterminal in a state out to a whole tree; any, at the end, or before a
//! given terminal.
//!
//! `AnyCompletion` finds light completions, `EndCompletion` those on which no terminal comes any more, and `WantedCompletion` those on which a given terminal comes
//! next. In `specs/`, `CompletionSearches` says what is found, `StepMoves` which moves are added for a step and for a way.

mod any_completion;
mod end_completion;
mod step_moves;
mod wanted_completion;
mod wanted_steps;

pub use crate::completion_steps::CompletionGraphs;
pub use crate::state_paths::StatePaths;
pub use any_completion::AnyCompletion;
pub use end_completion::EndCompletion;
pub use lalrpop_lr1_least_trees::rest_trees::{rest_count, rest_moves};
pub use wanted_completion::WantedCompletion;
pub use wanted_steps::WantedSteps;
