//! What is wrong with a value that spells no grammar and no tree.

use crate::key::Key;
use lalrpop_grammar_symbols::{Atom, List};
use std::alloc::{AllocError, AllocFailed};

/// A step into a value.
#[derive(Debug, PartialEq, Eq, Drop)]
pub enum Step {
    /// To the value at a key of an object.
    Key(Key),
    /// To the value at an index of a list, counted from 0.
    Index(usize),
}

/// What is wrong with a value.
#[derive(Debug, PartialEq, Eq, Drop)]
pub enum FaultKind {
    /// The object lacks this key.
    MissingKey(Key),
    /// The object has this key, which its form doesn't have.
    UnknownKey(Atom),
    /// The value is of another JSON kind than its path asks for, or tells no form.
    WrongShape,
    /// The text is no name.
    BadName,
    /// The number is no whole number below 2^32, or a span ends before it begins.
    BadNumber,
}

/// The first fault of a value, in reading order.
#[derive(Debug, PartialEq, Eq, Drop)]
pub struct Fault {
    /// From the whole value to the one that is at fault.
    pub path: List<Step>,
    /// What is wrong there.
    pub kind: FaultKind,
}

/// Why a value wasn't read.
#[derive(Debug, PartialEq, Eq, Drop)]
pub enum ReadError {
    /// The value spells nothing: its first fault in reading order.
    Shape {
        /// From the whole value to the one that is at fault.
        path: List<Step>,
        /// What is wrong there.
        kind: FaultKind,
    },
    /// There was no memory.
    Memory,
}

impl From<Fault> for ReadError {
    ghost use Rattle.std.specs.Prelude.{◌≡◌};
    ghost use Rattle.lalrpop_json_values.specs.declared.fault.ReadError.TheVariants.{Shape};

    ghost from_gives = { λ fault e. e ≡ Shape fault.path fault.kind };

    fn from(fault: Fault) -> ReadError {
        ReadError::Shape {
            path: fault.path,
            kind: fault.kind,
        }
    }
}

impl From<AllocError> for ReadError {
    ghost use Rattle.std.specs.Prelude.{◌≡◌};
    ghost use Rattle.lalrpop_json_values.specs.declared.fault.ReadError.TheVariants.{Memory};

    ghost from_gives = { λ _ e. e ≡ Memory };

    fn from(_: AllocError) -> ReadError {
        ReadError::Memory
    }
}

impl<T: Drop> From<AllocFailed<T>> for ReadError {
    ghost use Rattle.std.specs.Prelude.{◌≡◌};
    ghost use Rattle.lalrpop_json_values.specs.declared.fault.ReadError.TheVariants.{Memory};

    ghost from_gives = { λ _ e. e ≡ Memory };

    fn from(_: AllocFailed<T>) -> ReadError {
        ReadError::Memory
    }
}
