//! What differs in a case.

use std::alloc::{AllocError, AllocFailed};
use std::fmt::{self, Display, Formatter, Write};

/// What is wrong with the conflicts of a case, or why it has none.
#[derive(Clone, Copy)]
pub(crate) enum Difference {
    /// The grammar isn't one.
    NoGrammar,
    /// The grammar is refused before it is looked at for conflicts.
    Refused,
    /// A certificate isn't accepted.
    NotAccepted,
    /// The grammar as written doesn't admit a certificate's tree.
    NotAdmitted,
    /// A certificate's tree is another one when it is unfolded and folded again.
    NotFolded,
    /// There isn't one certificate for each conflict of the canonical states.
    NotEach,
    /// Memory ran out.
    Memory,
}

impl From<AllocError> for Difference {
    fn from(_: AllocError) -> Difference {
        Difference::Memory
    }
}

impl<T: Drop> From<AllocFailed<T>> for Difference {
    fn from(_: AllocFailed<T>) -> Difference {
        Difference::Memory
    }
}

/// Prints what differs.
impl Display for Difference {
    fn fmt<W: Write>(&self, f: &mut Formatter<W>) -> fmt::Result {
        f.write_str(match self {
            Difference::NoGrammar => "no grammar",
            Difference::Refused => "a refused grammar",
            Difference::NotAccepted => "a certificate that isn't accepted",
            Difference::NotAdmitted => "a tree that isn't admitted",
            Difference::NotFolded => "another tree when it is folded again",
            Difference::NotEach => "not one certificate for each conflict",
            Difference::Memory => "out of memory",
        })
    }
}
