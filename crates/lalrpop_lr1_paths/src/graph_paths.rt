//! Light paths of directed graphs whose edges have weights: from each node to one of some goals.
//!
//! Nodes, edges and goals are numbers. In `specs/`, `GraphPaths` says what a path is, `Graphs` what a graph keeps, and `PathSearches`
//! what the search for paths has found.

mod graph;
mod path_table;
mod paths;
mod waiting;

pub use graph::{Edge, Goal, Graph};
pub use paths::{GoalPath, GoalPaths};
