//! What kernels ask of lookaheads.

ghost use Rattle.std.specs.Prelude.{◌≡◌, ◌↔◌, ◌+◌, ℕ, true, Contains, IfOk};
ghost use Rattle.lalrpop_grammar_repr.specs.declared.terminal_set.TerminalSet.{TerminalSet};
ghost use Rattle.lalrpop_lr1_theory.specs.Productions.{Next};
ghost use Rattle.lalrpop_sets.specs.AscendingLists.{Ascends, has};
ghost use Rattle.lalrpop_sets.specs.Tokens.{eof_number};
ghost use Rattle.lalrpop_lr1_build.specs.Nexts.{IsNextIn};

use lalrpop_lr1_first::ClosureLookahead;
use lalrpop_sets::{Collection, Nil, TokenSet};
use std::alloc::{AllocError, Global};

/// A lookahead of the items of a kernel, which its tokens determine.
pub trait KernelLookahead: ClosureLookahead {
    // Whether its numbers are in order.
    ghost in_order: { Self → Type 0 };

    /// The same lookahead, in order.
    fn put_in_order(self, alloc: Global) -> Result<Self, AllocError>
        ensures order { IfOk result (λ same. in_order same) }
        ensures same { IfOk result (λ same. same ≡ self) };

    ghost one: { (a b : Self) → in_order a → in_order b → ((k : ℕ) → has (Self.marks a) k ≡ has (Self.marks b) k) → a ≡ b };

    ghost equal_are_one: { (a b : Self) → Self.eq a b ≡ true → a ≡ b };

    ghost nexts_are: { (ts : TerminalSet) (a : Self) (x : Next) → Contains (Self.look ts a).nexts x ↔ IsNextIn ts (Self.marks a) x };

    ghost error_is: { (ts : TerminalSet) (a : Self) → (Self.look ts a).error ≡ has (Self.marks a) (eof_number ts + 1) };
}

impl KernelLookahead for Nil {
    ghost use Rattle.std.specs.Prelude.{refl};
    ghost use Rattle.lalrpop_lr1_build.specs.NextLaws.{nil_nexts, one_nil};

    ghost in_order = { λ _. Unit {0} };

    ghost one = { λ a b _ _ _. one_nil a b };

    ghost equal_are_one = { λ a b _. one_nil a b };

    ghost nexts_are = { λ ts a x. nil_nexts ts x };

    ghost error_is = { λ ts a. refl };

    fn put_in_order(self, _: Global) -> Result<Nil, AllocError> {
        Ok(self)
    }
}

impl KernelLookahead for TokenSet {
    ghost use Rattle.std.specs.Prelude.{refl};
    ghost use Rattle.lalrpop_sets.proofs.AscendingListLemmas.{asc_same};
    ghost use Rattle.lalrpop_lr1_build.specs.NextLaws.{equal_sets, token_nexts};

    ghost in_order = { Ascends };

    ghost one = { asc_same 0 0 };

    ghost equal_are_one = { equal_sets };

    ghost nexts_are = { token_nexts };

    ghost error_is = { λ ts a. refl };

    fn put_in_order(self, alloc: Global) -> Result<TokenSet, AllocError> {
        let mut set = self;
        set.union_with(&TokenSet::empty(alloc))?;
        Ok(set)
    }
}
