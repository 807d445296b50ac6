//! The types under the names that LALRPOP gives them.

use crate::automaton::Dfa;
use crate::error::DfaConstructionError;
use crate::kind::{DfaStateIndex, NfaIndex};
use lalrpop_lexer_nfa::{Nfa, NfaConstructionError, NfaStateIndex};

/// An automaton that tells which of several patterns a text begins with.
pub type DFA = Dfa;

/// Why no automaton was made for some patterns.
pub type DFAConstructionError = DfaConstructionError;

/// A state's number within an automaton of several patterns.
pub type DFAStateIndex = DfaStateIndex;

/// An automaton of a single pattern.
pub type NFA = Nfa;

/// Why no automaton was made for a pattern.
pub type NFAConstructionError = NfaConstructionError;

/// A pattern's number among those of an automaton.
pub type NFAIndex = NfaIndex;

/// A state's number within an automaton of a single pattern.
pub type NFAStateIndex = NfaStateIndex;
