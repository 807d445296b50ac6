//! Why a grammar isn't inlined.

ghost use Rattle.std.specs.Prelude.{◌≡◌, Some};
ghost use Rattle.lalrpop_lr1_inline.specs.InlineFaults.{inline_fault_text};

use lalrpop_grammar_repr::NormError;
use std::alloc::{AllocError, AllocFailed};
use std::error::Error;
use std::fmt::{self, Display, Formatter, Write};

/// Why a grammar isn't inlined.
#[derive(Debug, PartialEq, Eq, Drop)]
pub enum InlineFault {
    /// Something is wrong with the grammar.
    Norm(NormError),
    /// Memory ran out.
    Memory,
}

impl Display for InlineFault {
    ghost output = { λ fault. Some (inline_fault_text fault) };

    fn fmt<W: Write>(&self, f: &mut Formatter<W>) -> fmt::Result {
        match self {
            InlineFault::Norm(error) => write!(f, "{error}"),
            InlineFault::Memory => f.write_str("out of memory"),
        }
    }
}

impl Error for InlineFault {}

impl From<NormError> for InlineFault {
    ghost use Rattle.lalrpop_lr1_inline.specs.declared.fault.InlineFault.TheVariants.{Norm};

    ghost from_gives = { λ error fault. fault ≡ Norm error };

    fn from(error: NormError) -> InlineFault {
        InlineFault::Norm(error)
    }
}

impl From<AllocError> for InlineFault {
    ghost use Rattle.lalrpop_lr1_inline.specs.declared.fault.InlineFault.TheVariants.{Memory};

    ghost from_gives = { λ _ fault. fault ≡ Memory };

    fn from(_: AllocError) -> InlineFault {
        InlineFault::Memory
    }
}

impl<T: Drop> From<AllocFailed<T>> for InlineFault {
    ghost use Rattle.lalrpop_lr1_inline.specs.declared.fault.InlineFault.TheVariants.{Memory};

    ghost from_gives = { λ _ fault. fault ≡ Memory };

    fn from(_: AllocFailed<T>) -> InlineFault {
        InlineFault::Memory
    }
}
