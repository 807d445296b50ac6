//! Automata that tell which of several patterns a text begins with.

pub use crate::automaton::Dfa;
pub use crate::build::build_dfa;
pub use crate::dead_ends::DeadEnds;
pub use crate::error::DfaConstructionError;
pub use crate::interpreter::interpret;
pub use crate::kind::{DfaStateIndex, Kind, NfaIndex};
pub use crate::outcome::Precedence;
pub use crate::state::State;
pub use lalrpop_lexer_nfa::remove_overlap;
