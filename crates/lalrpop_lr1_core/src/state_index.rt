//! The numbers of states.

ghost use Rattle.std.specs.Prelude.{◌++◌, Some, codes, decimal};

use lalrpop_grammar_repr::TryClone;
use std::alloc::{AllocError, Global};
use std::fmt::{self, Debug, Display, Formatter, Write};

/// The number of a state.
#[derive(Clone, Copy, PartialEq, Eq, PartialOrd, Ord, Hash)]
pub struct StateIndex(pub usize);

/// The number, `3`.
impl Display for StateIndex {
    ghost output = { λ index. Some (decimal index.0) };

    fn fmt<W: Write>(&self, f: &mut Formatter<W>) -> fmt::Result {
        Display::fmt(&self.0, f)
    }
}

/// The number behind an `S`, `S3`.
impl Debug for StateIndex {
    ghost debug_output = { λ index. Some (codes "S" ++ decimal index.0) };

    fn fmt<W: Write>(&self, f: &mut Formatter<W>) -> fmt::Result {
        write!(f, "S{}", self.0)
    }
}

impl TryClone for StateIndex {
    fn try_clone_in(&self, _: Global) -> Result<StateIndex, AllocError> {
        Ok(*self)
    }
}
