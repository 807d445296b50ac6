//! Automata of single patterns.

pub use lalrpop_lexer_nfa::{
    ACCEPT, Edge, EdgeIterator, EdgeLabel, Edges, Nfa, NfaConstructionError, NfaStateIndex, Noop,
    Other, REJECT, START, State, StateKind, Test, interpret,
};
