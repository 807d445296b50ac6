//! Why a text has no tokens.

ghost use Rattle.std.specs.Prelude.{◌≡◌, Some};
ghost use Rattle.lalrpop_lexer_scan.specs.Faults.{scan_error_text};

use std::alloc::{AllocError, AllocFailed};
use std::error::Error;
use std::fmt::{self, Display, Formatter, Write};

/// Why a text has no tokens.
#[derive(Clone, Copy, Debug, PartialEq, Eq)]
pub enum ScanError {
    /// From this byte on nothing nonempty is matched.
    NoToken(usize),
    /// Memory ran out.
    Memory,
}

impl Display for ScanError {
    ghost output = { λ e. Some (scan_error_text e) };

    fn fmt<W: Write>(&self, f: &mut Formatter<W>) -> fmt::Result {
        match self {
            ScanError::NoToken(at) => write!(f, "no token at byte {at}"),
            ScanError::Memory => f.write_str("out of memory"),
        }
    }
}

impl Error for ScanError {}

impl From<AllocError> for ScanError {
    ghost use Rattle.lalrpop_lexer_scan.specs.declared.fault.ScanError.TheVariants.{Memory};

    ghost from_gives = { λ _ e. e ≡ Memory };

    fn from(_: AllocError) -> ScanError {
        ScanError::Memory
    }
}

impl<T: Drop> From<AllocFailed<T>> for ScanError {
    ghost use Rattle.lalrpop_lexer_scan.specs.declared.fault.ScanError.TheVariants.{Memory};

    ghost from_gives = { λ _ e. e ≡ Memory };

    fn from(_: AllocFailed<T>) -> ScanError {
        ScanError::Memory
    }
}
