//! Lane tables: which lookaheads the conflicting actions of a state have, and from which states these come.
//!
//! In `specs/`, `ColumnAnswers` says what comes of sets that are put into columns, `AppliedSets` what a context set makes of the
//! reductions of a state, `TableViews` what a lane table shows, and what its rows are, `TableGains` what it gains, `TraceNodes` and
//! `LaneTraces` what is traced, `UnifiedClasses` what becomes of sets of states that are unified, `MergedStates` what a merge keeps of
//! states, `CopiedStates` and `MergeClasses` what its parts do to states and classes, `MergeWalks` how it walks, `PatchedTargets` by what its
//! states reduce then, and `MergeViews` what it shows.
#![tactic(auto)]

mod context_sets;
mod lane_tables;
mod lane_tracer;
mod merge;
mod merge_classes;
mod merge_targets;
mod merge_walk;
mod merged_states;
mod unify_tables;

pub use context_sets::{ConflictIndex, ContextFault, ContextSet, OverlappingLookahead};
pub use lane_tables::{LaneTable, RowsFault};
pub use lane_tracer::LaneTracer;
pub use merge::Merge;
pub use merge_classes::MergeFault;
pub use unify_tables::{StateSet, UnifyTable};
