//! The finite automata of single patterns.
//!
//! A pattern's tree becomes an automaton by Thompson's construction: of transitions, which read one character of a
//! range, and of epsilon edges, which read nothing.
#![tactic(auto)]

mod automaton;
mod build;
mod edge;
mod edges;
mod from_re;
mod grow;
mod interpreter;
mod label;
mod laws;
mod overlap;
mod reach;
mod repeats;
mod state;
mod state_set;
mod test;

pub use automaton::{ACCEPT, FIRST_ACCEPT, Nfa, REJECT, START};
pub use edge::{Edge, NfaStateIndex, Noop, Other};
pub use edges::EdgeIterator;
pub use from_re::NfaConstructionError;
pub use interpreter::interpret;
pub use label::EdgeLabel;
pub use laws::other_edges_reject;
pub use overlap::remove_overlap;
pub use state::{Edges, State, StateKind};
pub use state_set::NfaStateSet;
pub use test::Test;
