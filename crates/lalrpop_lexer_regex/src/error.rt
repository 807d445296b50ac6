//! Why a text is no pattern.

ghost use Rattle.std.specs.Prelude.{◌≡◌};

use std::alloc::{AllocError, AllocFailed};
use thiserror::Error;

/// Why a text is no pattern. The number is the byte of the text where the fault stands.
#[derive(Clone, Copy, Debug, PartialEq, Eq, Error)]
pub enum RegexError {
    /// What stands there is nothing that the syntax allows there.
    #[error("syntax error in the pattern at byte {0}")]
    Syntax(usize),
    /// What stands there is syntax of other regular expressions, or a count or a depth above what is carried.
    #[error("not supported in a pattern, at byte {0}")]
    Unsupported(usize),
    /// A range or bounds whose first end is above the second, or a number that is no character.
    #[error("bad range in the pattern at byte {0}")]
    BadRange(usize),
    /// A name of a set of characters that stands for none.
    #[error("unknown name in the pattern at byte {0}")]
    UnknownName(usize),
    /// Memory ran out.
    #[error("out of memory")]
    Memory,
}

impl From<AllocError> for RegexError {
    ghost use Rattle.lalrpop_lexer_regex.specs.declared.error.RegexError.TheVariants.{Memory};

    ghost from_gives = { λ _ e. e ≡ Memory };

    fn from(_: AllocError) -> RegexError {
        RegexError::Memory
    }
}

impl<T: Drop> From<AllocFailed<T>> for RegexError {
    ghost use Rattle.lalrpop_lexer_regex.specs.declared.error.RegexError.TheVariants.{Memory};

    ghost from_gives = { λ _ e. e ≡ Memory };

    fn from(_: AllocFailed<T>) -> RegexError {
        RegexError::Memory
    }
}
