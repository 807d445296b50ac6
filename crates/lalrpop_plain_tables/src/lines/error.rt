//! What may be wrong with lines.

ghost use Rattle.std.specs.Prelude.{Some};
ghost use Rattle.lalrpop_plain_tables.specs.ErrorTexts.{lines_error_text};

use std::alloc::{AllocError, AllocFailed};
use std::fmt::{self, Display, Formatter, Write};

/// What is wrong with lines of productions.
#[derive(Clone, Copy)]
pub enum LinesError {
    /// The line of this number, counted from 1, is no production.
    Line(usize),
    /// There are more productions than actions can be numbered.
    TooMany,
    /// There is no memory.
    Memory,
}

impl From<AllocError> for LinesError {
    ghost use Rattle.std.specs.Prelude.{◌≡◌};
    ghost use Rattle.lalrpop_plain_tables.specs.declared.lines.error.LinesError.TheVariants.{Memory};

    ghost from_gives = { λ _ error. error ≡ Memory };

    fn from(_: AllocError) -> LinesError {
        LinesError::Memory
    }
}

impl<T: Drop> From<AllocFailed<T>> for LinesError {
    ghost use Rattle.std.specs.Prelude.{◌≡◌};
    ghost use Rattle.lalrpop_plain_tables.specs.declared.lines.error.LinesError.TheVariants.{Memory};

    ghost from_gives = { λ _ error. error ≡ Memory };

    fn from(_: AllocFailed<T>) -> LinesError {
        LinesError::Memory
    }
}

impl Display for LinesError {
    ghost output = { λ e. Some (lines_error_text e) };

    fn fmt<W: Write>(&self, f: &mut Formatter<W>) -> fmt::Result {
        match self {
            LinesError::Line(number) => write!(f, "line {number} is no production"),
            LinesError::TooMany => f.write_str("too many productions"),
            LinesError::Memory => f.write_str("out of memory"),
        }
    }
}
