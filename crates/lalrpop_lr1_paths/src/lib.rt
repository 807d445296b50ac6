//! Light paths in the graph of states, and completions: the moves from a position in a state out to a whole tree.
#![tactic(auto)]

pub mod completion_steps;
pub mod completions;
pub mod graph_paths;
pub mod state_paths;
