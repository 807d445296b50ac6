//! The steps of completions over the items of states, as graphs.
//!
//! A state and a nonterminal that stands behind the dot of one of its items are a node of a graph; each such item leads to the node of its
//! own nonterminal, in the state that stands before the item on the state's path. In `specs/`, `CompletionSteps` says what nodes and steps stand
//! for, `ToldSteps` and `EmptySteps` of what they are made, and `CompletionGraphs` what their graphs keep.

mod completion_graphs;
mod steps_of_states;

pub use completion_graphs::CompletionGraphs;
pub use steps_of_states::{CompletionStep, node_of};
