//! Why no automaton is made for some patterns.

ghost use Rattle.std.specs.Prelude.{◌≡◌};

use crate::kind::NfaIndex;
use lalrpop_lexer_nfa::NfaConstructionError;
use std::alloc::{AllocError, AllocFailed};
use thiserror::Error;

/// Why no automaton was made for some patterns.
#[derive(Clone, Copy, Debug, PartialEq, Eq, Error)]
pub enum DfaConstructionError {
    /// For one of the patterns there can be none.
    #[error("no automaton can be made for one of the patterns")]
    NfaConstructionError {
        /// The first such pattern.
        index: NfaIndex,
        /// Why there can be none.
        error: NfaConstructionError,
    },
    /// Two patterns with the same precedence match a word, and none that matches it has a greater one.
    #[error("two patterns match the same word")]
    Ambiguity {
        /// The last pattern but one of those that tie on the first word with a tie: the shortest, then the least.
        match0: NfaIndex,
        /// The last pattern of those.
        match1: NfaIndex,
    },
    /// Memory ran out.
    #[error("out of memory")]
    Memory,
}

impl From<AllocError> for DfaConstructionError {
    ghost use Rattle.lalrpop_lexer.specs.declared.error.DfaConstructionError.TheVariants.{Memory};

    ghost from_gives = { λ _ e. e ≡ Memory };

    fn from(_: AllocError) -> DfaConstructionError {
        DfaConstructionError::Memory
    }
}

impl<T: Drop> From<AllocFailed<T>> for DfaConstructionError {
    ghost use Rattle.lalrpop_lexer.specs.declared.error.DfaConstructionError.TheVariants.{Memory};

    ghost from_gives = { λ _ e. e ≡ Memory };

    fn from(_: AllocFailed<T>) -> DfaConstructionError {
        DfaConstructionError::Memory
    }
}
