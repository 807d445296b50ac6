//! Copies of whatever a map holds.

ghost use Rattle.std.specs.Prelude.{◌≡◌, IfOk};

use crate::production::NonterminalData;
use lalrpop_grammar::{NonterminalString, TerminalString, TypeRepr};
use std::alloc::{AllocError, Global};

/// What can be copied, where there is memory for it.
pub trait TryClone: Sized {
    /// A copy that equals it.
    fn try_clone_in(&self, alloc: Global) -> Result<Self, AllocError>
        ensures { IfOk result (λ copy. copy ≡ self.now) };
}

impl TryClone for usize {
    fn try_clone_in(&self, _: Global) -> Result<usize, AllocError> {
        Ok(*self)
    }
}

impl TryClone for NonterminalString {
    fn try_clone_in(&self, _: Global) -> Result<NonterminalString, AllocError> {
        self.try_clone()
    }
}

impl TryClone for TerminalString {
    fn try_clone_in(&self, _: Global) -> Result<TerminalString, AllocError> {
        self.try_clone()
    }
}

impl TryClone for TypeRepr {
    fn try_clone_in(&self, alloc: Global) -> Result<TypeRepr, AllocError> {
        self.try_clone(alloc)
    }
}

impl TryClone for NonterminalData {
    fn try_clone_in(&self, alloc: Global) -> Result<NonterminalData, AllocError> {
        self.try_clone(alloc)
    }
}
