//! The faults of a text that is no pattern.

use std::alloc::{AllocError, AllocFailed};

/// What kind of fault a text has that is no pattern.
#[derive(Clone, Copy, Debug, PartialEq, Eq)]
pub enum PatternFaultKind {
    /// What stands there is nothing that the syntax allows there.
    Syntax,
    /// What stands there is syntax of patterns elsewhere, and not carried here.
    Unsupported,
    /// A range or a pair of bounds whose first end is above the second, or a number that is no character.
    BadRange,
    /// A name that stands for no set of characters.
    UnknownName,
}

/// Why a part of a text wasn't read.
#[derive(Clone, Copy, Debug, PartialEq, Eq)]
pub enum PatternError {
    /// A fault, and how many characters are left of the text where it stands.
    Fault(PatternFaultKind, usize),
    /// Memory ran out.
    Memory,
}

impl From<AllocError> for PatternError {
    ghost use Rattle.std.specs.Prelude.{◌≡◌};
    ghost use Rattle.lalrpop_lexer_regex.specs.declared.classes.fault.PatternError.TheVariants.{Memory};

    ghost from_gives = { λ _ e. e ≡ Memory };

    fn from(_: AllocError) -> PatternError {
        PatternError::Memory
    }
}

impl<T: Drop> From<AllocFailed<T>> for PatternError {
    ghost use Rattle.std.specs.Prelude.{◌≡◌};
    ghost use Rattle.lalrpop_lexer_regex.specs.declared.classes.fault.PatternError.TheVariants.{Memory};

    ghost from_gives = { λ _ e. e ≡ Memory };

    fn from(_: AllocFailed<T>) -> PatternError {
        PatternError::Memory
    }
}
