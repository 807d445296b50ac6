//! Why a grammar isn't written.

ghost use Rattle.std.specs.Prelude.{◌≡◌};

use std::alloc::{AllocError, AllocFailed};

/// Why a grammar wasn't written.
#[derive(Debug, PartialEq, Eq, Drop)]
pub enum WriteError {
    /// No value spells the grammar.
    NotWritten,
    /// There was no memory.
    Memory,
}

impl From<AllocError> for WriteError {
    ghost use Rattle.lalrpop_json_grammar.specs.declared.writer.fault.WriteError.TheVariants.{Memory};

    ghost from_gives = { λ _ e. e ≡ Memory };

    fn from(_: AllocError) -> WriteError {
        WriteError::Memory
    }
}

impl<T: Drop> From<AllocFailed<T>> for WriteError {
    ghost use Rattle.lalrpop_json_grammar.specs.declared.writer.fault.WriteError.TheVariants.{Memory};

    ghost from_gives = { λ _ e. e ≡ Memory };

    fn from(_: AllocFailed<T>) -> WriteError {
        WriteError::Memory
    }
}
