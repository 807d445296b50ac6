//! The report of tables: a summary of what was constructed, then each state with its items, reductions, shifts, gotos and conflicts; and
//! traces: how states came to have items, with examples.
//!
//! It is LALRPOP's report file. In `specs/`, `ShownStates` says which texts are shown of a state, `Reports` what the report over them is.
#![tactic(auto)]

mod display_len;
mod generating;
mod lines;
mod lookahead_printer;
mod state_lines;
mod summary;
mod traces;

pub use display_len::HasDisplayLen;
pub use generating::{ReportError, ReportGenerator, generate_report, report_text};
pub use lookahead_printer::LookaheadPrinter;
pub use traces::{
    Example, ExampleSymbol, FilteredPathEnumerator, PathEnumerator, Reduction, TraceGraph,
    TraceGraphEdge, TraceGraphNode, Tracer,
};
