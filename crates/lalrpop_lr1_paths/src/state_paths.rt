//! Light paths to states, all of them one tree, and the moves that build least trees over the symbols along a path.
//!
//! A state's path is found back from it to state 0, in the graph of the states' edges turned round. In `specs/`, `PathTables` says what
//! is kept of the paths, `PathForests` what the moves along one build.

mod path_edges;
mod path_moves;
mod reversed;
mod state_paths;

pub use state_paths::StatePaths;
