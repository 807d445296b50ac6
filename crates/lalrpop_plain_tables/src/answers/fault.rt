//! Why there is no answer.

ghost use Rattle.std.specs.Prelude.{◌≡◌, Some};
ghost use Rattle.lalrpop_plain_tables.specs.FaultTexts.{answer_fault_text};

use crate::lines::LinesError;
use std::alloc::{AllocError, AllocFailed};
use std::fmt::{self, Debug, Display, Formatter, Write};

/// Why there is no answer.
#[derive(Clone, Copy)]
pub enum AnswerFault {
    /// Something is wrong with the lines; want of memory is told as such.
    Lines(LinesError),
    /// The terminals of the grammar aren't numbered by their places.
    Terminals,
    /// The start stands on a right side.
    NotAlone,
    /// The start reaches a nonterminal that has no tree.
    Barren,
    /// The canonical states have conflicts.
    Conflicts,
    /// A parse would make too many moves.
    Limit,
    /// There is no memory.
    Memory,
}

impl From<AllocError> for AnswerFault {
    ghost use Rattle.lalrpop_plain_tables.specs.declared.answers.fault.AnswerFault.TheVariants.{Memory};

    ghost from_gives = { λ _ error. error ≡ Memory };

    fn from(_: AllocError) -> AnswerFault {
        AnswerFault::Memory
    }
}

impl<T: Drop> From<AllocFailed<T>> for AnswerFault {
    ghost use Rattle.lalrpop_plain_tables.specs.declared.answers.fault.AnswerFault.TheVariants.{Memory};

    ghost from_gives = { λ _ error. error ≡ Memory };

    fn from(_: AllocFailed<T>) -> AnswerFault {
        AnswerFault::Memory
    }
}

impl Display for AnswerFault {
    ghost output = { λ e. Some (answer_fault_text e) };

    fn fmt<W: Write>(&self, f: &mut Formatter<W>) -> fmt::Result {
        match self {
            AnswerFault::Lines(error) => Display::fmt(error, f),
            AnswerFault::Terminals => f.write_str("the terminals aren't numbered"),
            AnswerFault::NotAlone => f.write_str("the start stands on a right side"),
            AnswerFault::Barren => f.write_str("the start reaches a nonterminal without a tree"),
            AnswerFault::Conflicts => f.write_str("the canonical states have conflicts"),
            AnswerFault::Limit => f.write_str("too many moves"),
            AnswerFault::Memory => f.write_str("out of memory"),
        }
    }
}

// Printed as text: written out it would be dear to prove.
impl Debug for AnswerFault {
    fn fmt<W: Write>(&self, f: &mut Formatter<W>) -> fmt::Result {
        Display::fmt(self, f)
    }
}

impl std::error::Error for AnswerFault {}
