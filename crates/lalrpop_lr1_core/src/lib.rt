//! Items, states and conflicts of tables, and the graph of states.
//!
//! Contracts see a lookahead as its collection says: a `TokenSet` as the ascending list of its numbers. `Views` in `specs/` says
//! what the theory of tables sees of productions, items and states; `Conflicts` which conflicts a state has; `Edges` which edges
//! states have, and between which states symbols lead.
#![tactic(auto)]

mod conflict;
mod edge;
mod item;
mod item_text;
mod lookahead;
mod nil_lookahead;
mod reduction;
mod shortest;
mod state;
mod state_graph;
mod state_index;
mod symbol_sets;
mod table_fault;
mod token_lookahead;
mod trace;

pub use conflict::{Action, Conflict, Lr0Conflict, Lr1Conflict};
pub use item::{Item, Lr0Item, Lr1Item};
pub use lookahead::{Lookahead, LookaheadInterpret};
pub use state::{Items, Lr0Items, Lr0State, Lr1Items, Lr1State, State};
pub use state_graph::{Predecessors, StateGraph, Successors};
pub use state_index::StateIndex;
pub use symbol_sets::SymbolSets;
pub use table_fault::{
    Lr0TableConstructionError, Lr1Result, Lr1TableConstructionError, LrResult,
    TableConstructionError, TableFault,
};
