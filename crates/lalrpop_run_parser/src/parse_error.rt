//! Why a text has no tree.

ghost use Rattle.std.specs.Prelude.{◌≡◌};
ghost use Rattle.lalrpop_run_parser.specs.ParserAnswers.{parse_error_of_scan};
ghost use Rattle.lalrpop_run_parser.specs.declared.parse_error.ParseError.TheVariants.{Memory};

use lalrpop_grammar_symbols::Atom;
use lalrpop_lexer_scan::ScanError;
use std::alloc::{AllocError, AllocFailed};

/// Why a text has no tree.
#[derive(Debug, PartialEq, Eq, Drop)]
pub enum ParseError {
    /// From this byte on nothing nonempty is matched.
    NoToken(usize),
    /// The tokens up to and with this one begin no sentence; those before it do.
    Token {
        /// The byte at which it begins.
        at: usize,
        /// Its text.
        text: Atom,
    },
    /// All tokens begin a sentence, and are none.
    End,
    /// More moves would be made than the limit says.
    Limit,
    /// Memory ran out.
    Memory,
}

impl From<AllocError> for ParseError {
    ghost from_gives = { λ _ error. error ≡ Memory };

    fn from(_: AllocError) -> ParseError {
        ParseError::Memory
    }
}

impl<T: Drop> From<AllocFailed<T>> for ParseError {
    ghost from_gives = { λ _ error. error ≡ Memory };

    fn from(_: AllocFailed<T>) -> ParseError {
        ParseError::Memory
    }
}

impl From<ScanError> for ParseError {
    ghost from_gives = { λ scan error. error ≡ parse_error_of_scan scan };

    fn from(error: ScanError) -> ParseError {
        match error {
            ScanError::NoToken(at) => ParseError::NoToken(at),
            ScanError::Memory => ParseError::Memory,
        }
    }
}
