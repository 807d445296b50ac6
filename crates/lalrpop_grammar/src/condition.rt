//! Conditions on a macro's parameters.

ghost use Rattle.std.specs.Prelude.{◌≡◌, IfOk};

use lalrpop_grammar_symbols::{Atom, NonterminalString, Span};
use std::alloc::AllocError;

/// How a condition compares.
#[derive(Clone, Copy, PartialEq, Eq, PartialOrd, Ord, Hash)]
pub enum ConditionOp {
    /// `==`: the texts are equal.
    Equals,
    /// `!=`: the texts differ.
    NotEquals,
    /// `~~`: the pattern is found in the text.
    Match,
    /// `!~`: the pattern isn't found in the text.
    NotMatch,
}

/// `if K == "text"` behind an alternative of a macro.
#[derive(PartialEq, Eq)]
pub struct Condition {
    /// Where it is written.
    pub span: Span,
    /// The parameter that is tested.
    pub lhs: NonterminalString,
    /// The text or the pattern that it is tested against.
    pub rhs: Atom,
    /// The test.
    pub op: ConditionOp,
}

impl Drop for Condition {
    /// Drops what it holds: where it is owned, that is one call.
    fn drop(self) {
        let Condition {
            span: _,
            lhs: _lhs,
            rhs: _rhs,
            op: _op,
        } = self;
    }
}

impl Condition {
    /// A copy that equals it.
    pub fn try_clone(&self) -> Result<Condition, AllocError>
        ensures { IfOk result (λ copy. copy ≡ self.now) }
    {
        Ok(Condition {
            span: self.span,
            lhs: self.lhs.try_clone()?,
            rhs: self.rhs.try_clone()?,
            op: self.op,
        })
    }
}
