//! What closures ask of lookaheads.

ghost use Rattle.std.specs.Prelude.{◌≡◌, ◌||◌, ℕ, true, false, IsTrue, IsFalse, List, Bool, [], IfOk};
ghost use Rattle.lalrpop_sets.specs.AscendingLists.{has};
ghost use Rattle.lalrpop_sets.specs.Tokens.{eof_number};
ghost use Rattle.lalrpop_lr1_first.specs.Flows.{comes};

use crate::first_of::first_before;
use lalrpop_grammar_repr::TerminalSet;
use lalrpop_lr1_core::Lookahead;
use lalrpop_sets::{Nil, TokenSet};
use std::alloc::{AllocError, Global};

/// A lookahead that a closure carries from an item to those that it brings.
pub trait ClosureLookahead: Lookahead {
    // The numbers of what may follow.
    ghost marks: { Self → List ℕ };

    // Whether first sets count.
    ghost firsts: { Bool };

    /// The lookahead of the items that the dot before a nonterminal brings: `first` has the first tokens of what stands behind
    /// that, and the end where it may be empty.
    fn through(
        alloc: Global,
        terminals: &TerminalSet,
        first: &TokenSet,
        lookahead: &Self,
    ) -> Result<Self, AllocError>
        ensures { IfOk result (λ came. (k : ℕ) → has (marks came) k
            ≡ comes firsts (eof_number terminals.now) first.now (marks lookahead.now) k) };

    /// Joins the other into it, and says whether something came.
    fn join(&mut self, other: &Self) -> Result<bool, AllocError>
        ensures joined { IfOk result (λ changed. (k : ℕ)
            → has (marks self.new) k ≡ (has (marks self.old) k || has (marks other.now) k)) }
        ensures same { IfOk result (λ changed. IsFalse changed → self.new ≡ self.old) }
        ensures grown { IfOk result (λ changed. IsTrue changed
            → (k : ℕ) × (has (marks self.new) k ≡ true) × (has (marks self.old) k ≡ false)) };
}

impl ClosureLookahead for Nil {
    ghost marks = { λ _. [] };

    ghost firsts = { false };

    fn through(_: Global, _: &TerminalSet, _: &TokenSet, _: &Nil) -> Result<Nil, AllocError> {
        Ok(Nil)
    }

    fn join(&mut self, _: &Nil) -> Result<bool, AllocError> {
        Ok(false)
    }
}

impl ClosureLookahead for TokenSet {
    ghost marks = { λ set. set };

    ghost firsts = { true };

    fn through(
        _: Global,
        terminals: &TerminalSet,
        first: &TokenSet,
        lookahead: &TokenSet,
    ) -> Result<TokenSet, AllocError> {
        first_before(first.try_clone()?, terminals, lookahead)
    }

    fn join(&mut self, other: &TokenSet) -> Result<bool, AllocError> {
        self.union_with(other)
    }
}
