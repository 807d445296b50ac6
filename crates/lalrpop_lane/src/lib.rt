//! LR(1) states of a grammar by either method, in the order in which they are written out.
//!
//! By lanes they are the states without lookaheads, each reduction before what is carried over them to its item. Where that leaves a
//! conflict, merges make copies of states, in rounds, until nothing conflicts or no round helps. They are answered where they have no
//! conflict and pass the test of states; else the canonical way answers. In `specs/`, `LaneStates` says what states by lanes are, `Merges`
//! and `Rounds` what merges and rounds of them keep, `Constructions` what the construction by lane tables answers, `BuilderAnswers` what the
//! builders answer, and `GotoNumbers` by which numbers states are put in order.
#![tactic(auto)]

mod building;
mod carried;
mod conflict_tables;
mod construct;
mod edges;
mod lr0;
mod merging;
mod numbering;
mod ordering;
mod rounds;

pub use building::{build_lalr_states, build_lr1_states, build_states};
pub use construct::{LaneTableConstruct, build_lane_table_states};
pub use lalrpop_grammar_repr::methods::Method;
pub use lalrpop_lane_report::{
    Example, ExampleSymbol, FilteredPathEnumerator, HasDisplayLen, LookaheadPrinter,
    PathEnumerator, Reduction, ReportError, ReportGenerator, TraceGraph, TraceGraphEdge,
    TraceGraphNode, Tracer, generate_report, report_text,
};
pub use lalrpop_lane_tables::{
    ConflictIndex, ContextFault, ContextSet, LaneTable, LaneTracer, Merge, MergeFault,
    OverlappingLookahead, RowsFault, StateSet, UnifyTable,
};
