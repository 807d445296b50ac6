//! What a run of the normalizer is asked for, and what it refuses with.

ghost use Rattle.std.specs.Prelude.{◌≡◌, Some};
ghost use Rattle.lalrpop_grammar_repr.specs.NormErrorTexts.{norm_fault_text};

use crate::norm_error::NormError;
use lalrpop_grammar::Atom;
use std::alloc::{AllocError, AllocFailed};
use std::error::Error;
use std::fmt::{self, Display, Formatter, Write};

/// What a grammar is normalized under.
#[derive(PartialEq, Eq, Drop)]
pub struct Session {
    /// The features that are on.
    pub features: Vec<Atom>,
    /// How deep macros may stand in macros.
    pub macro_recursion_limit: u16,
}

/// Why a grammar isn't normalized.
#[derive(Debug, PartialEq, Eq, Drop)]
pub enum NormFault {
    /// Something is wrong with the grammar.
    Norm(NormError),
    /// The search for a condition's pattern gave up for the pattern's size.
    ConditionLimit,
    /// Memory ran out.
    Memory,
}

/// What a pass over the grammar answers.
pub type NormResult<T> = Result<T, NormFault>;

impl Display for NormFault {
    ghost output = { λ fault. Some (norm_fault_text fault) };

    fn fmt<W: Write>(&self, f: &mut Formatter<W>) -> fmt::Result {
        match self {
            NormFault::Norm(error) => write!(f, "{error}"),
            NormFault::ConditionLimit => f.write_str("condition limit"),
            NormFault::Memory => f.write_str("out of memory"),
        }
    }
}

impl Error for NormFault {}

impl From<NormError> for NormFault {
    ghost use Rattle.lalrpop_grammar_repr.specs.declared.session.NormFault.TheVariants.{Norm};

    ghost from_gives = { λ error fault. fault ≡ Norm error };

    fn from(error: NormError) -> NormFault {
        NormFault::Norm(error)
    }
}

impl From<AllocError> for NormFault {
    ghost use Rattle.lalrpop_grammar_repr.specs.declared.session.NormFault.TheVariants.{Memory};

    ghost from_gives = { λ _ fault. fault ≡ Memory };

    fn from(_: AllocError) -> NormFault {
        NormFault::Memory
    }
}

impl<T: Drop> From<AllocFailed<T>> for NormFault {
    ghost use Rattle.lalrpop_grammar_repr.specs.declared.session.NormFault.TheVariants.{Memory};

    ghost from_gives = { λ _ fault. fault ≡ Memory };

    fn from(_: AllocFailed<T>) -> NormFault {
        NormFault::Memory
    }
}
