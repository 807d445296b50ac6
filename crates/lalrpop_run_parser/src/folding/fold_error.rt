//! Why a written tree isn't folded.

ghost use Rattle.std.specs.Prelude.{◌≡◌};
ghost use Rattle.lalrpop_run_parser.specs.declared.folding.fold_error.FoldError.TheVariants.{Memory};

use std::alloc::{AllocError, AllocFailed};

/// Why a written tree isn't folded.
#[derive(Clone, Copy, Debug, PartialEq, Eq)]
pub enum FoldError {
    /// The start doesn't admit the tree over its own leaves.
    NotAdmitted,
    /// Memory ran out.
    Memory,
}

impl From<AllocError> for FoldError {
    ghost from_gives = { λ _ error. error ≡ Memory };

    fn from(_: AllocError) -> FoldError {
        FoldError::Memory
    }
}

impl<T: Drop> From<AllocFailed<T>> for FoldError {
    ghost from_gives = { λ _ error. error ≡ Memory };

    fn from(_: AllocFailed<T>) -> FoldError {
        FoldError::Memory
    }
}
