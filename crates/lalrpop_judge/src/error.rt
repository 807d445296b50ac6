//! Why the judge has no answer.

ghost use Rattle.std.specs.Prelude.{◌≡◌};
ghost use Rattle.lalrpop_judge.specs.declared.error.JudgeError.TheVariants.{Memory};

use lalrpop_grammar_rules::closed::ConditionFault;
use std::alloc::{AllocError, AllocFailed};
use std::error::Error;
use std::fmt;

/// Why the judge has no answer.
#[derive(Clone, Copy, Debug, PartialEq, Eq)]
pub enum JudgeError {
    /// The pattern of a condition isn't read, or the search for it is refused.
    Condition,
    /// Memory ran out.
    Memory,
}

impl fmt::Display for JudgeError {
    ghost use Rattle.std.specs.Prelude.{Some};
    ghost use Rattle.lalrpop_judge.specs.Faults.{words_of};

    ghost output = { λ e. Some (words_of e) };

    fn fmt<W: fmt::Write>(&self, f: &mut fmt::Formatter<W>) -> fmt::Result {
        match self {
            JudgeError::Condition => write!(f, "condition limit"),
            JudgeError::Memory => write!(f, "out of memory"),
        }
    }
}

impl Error for JudgeError {}

impl From<AllocError> for JudgeError {
    ghost from_gives = { λ _ e. e ≡ Memory };

    fn from(_error: AllocError) -> JudgeError {
        JudgeError::Memory
    }
}

impl<T: Drop> From<AllocFailed<T>> for JudgeError {
    ghost from_gives = { λ _ e. e ≡ Memory };

    fn from(_error: AllocFailed<T>) -> JudgeError {
        JudgeError::Memory
    }
}

impl From<ConditionFault> for JudgeError {
    ghost use Rattle.lalrpop_judge.specs.Faults.{fault_of};

    ghost from_gives = { λ fault e. e ≡ fault_of fault };

    fn from(fault: ConditionFault) -> JudgeError {
        match fault {
            ConditionFault::NotRead => JudgeError::Condition,
            ConditionFault::Refused => JudgeError::Condition,
            ConditionFault::Memory => JudgeError::Memory,
        }
    }
}
