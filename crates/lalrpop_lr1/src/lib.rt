//! Tables: first sets, LR(0) and canonical LR(1) states, their collapse, the test of states, parsing by states, and inlining.
//!
//! What stands here is what users of the tables see. The crates below hold it, with the definitions that the contracts cite.
#![tactic(auto)]

pub use lalrpop_lr1_build::builder::{Kernel, LookaheadBuild, Lr};
pub use lalrpop_lr1_build::collapse::collapse_to_lalr_states;
pub use lalrpop_lr1_build::{build_lr0_states, build_lr1_states_canonical};
pub use lalrpop_lr1_check::check_states;
pub use lalrpop_lr1_core::{
    Action, Conflict, Item, Items, Lookahead, LookaheadInterpret, Lr0Conflict, Lr0Item, Lr0Items,
    Lr0State, Lr0TableConstructionError, Lr1Conflict, Lr1Item, Lr1Items, Lr1Result, Lr1State,
    Lr1TableConstructionError, LrResult, Predecessors, State, StateGraph, StateIndex, Successors,
    SymbolSets, TableConstructionError, TableFault,
};
pub use lalrpop_lr1_first::FirstSets;
pub use lalrpop_lr1_inline::{InlineFault, inline, inline_order};
pub use lalrpop_lr1_interpret::parse::{
    ActionTable, Columns, ExpandedTree, NoTrees, Stop, TreeEntry, TreeLabel, TreeRef, TreeRefs,
    TreeStack, parse_limited,
};
pub use lalrpop_lr1_interpret::parse_trees::ParseTree;
pub use lalrpop_lr1_interpret::{InterpretError, InterpretFault, interpret, interpret_partial};
