//! Traces: how a state of a construction came to have an item, as a graph, and the examples that its paths tell.
//!
//! `TraceGraph` is the graph, `PathEnumerator` goes through its paths, each with the symbols that lead to the item and the reductions that
//! follow. In `specs/`, `TraceGraphs` says what is seen of a graph and what comes of adding to it, `Backtraces` which edges the graph of a
//! trace has, `Paths` which paths there are and in which order, `Examples` what a path tells, `Enumerators` what is left of the paths.

mod example;
mod filtered;
mod path_enumerator;
mod path_examples;
mod trace_graph;
mod tracer;

pub use example::{Example, ExampleSymbol, Reduction};
pub use filtered::FilteredPathEnumerator;
pub use path_enumerator::PathEnumerator;
pub use trace_graph::{TraceGraph, TraceGraphEdge, TraceGraphNode};
pub use tracer::Tracer;
