//! Collections: what a map keeps at each of its keys, and can be added to.

ghost use Rattle.std.specs.Prelude.{◌≡◌, ◌↔◌, ◌||◌, ◌∷◌, ◌++◌, [], ℕ, IsFalse, IfOk, IfErr, not, true, false};
ghost use Rattle.std.specs.BTreeSet.{insert_key};
ghost use Rattle.lalrpop_sets.specs.AscendingLists.{has};

use crate::nil::Nil;
use crate::token_set::TokenSet;
use std::alloc::{AllocError, Global};
use std::collections::BTreeSet;

/// What can be added to.
pub trait Collection: Sized + Drop {
    /// What is added.
    type Item;

    ghost holds_nothing: { Self → Type 0 };

    ghost same: { Self → Self → Type 0 };

    ghost pushes: { Self → Self.Item → Self → Type 0 };

    /// A collection that holds nothing.
    fn empty(alloc: Global) -> Self
        ensures { holds_nothing result };

    /// Adds the item, and says whether the content changed. Where memory is refused, the content is as before.
    fn push(&mut self, item: Self::Item) -> Result<bool, AllocError>
        ensures pushed { IfOk result (λ changed. pushes self.old item self.new) }
        ensures changed { IfOk result (λ changed. IsFalse changed ↔ same self.old self.new) }
        ensures kept { IfErr result (λ _. same self.old self.new) };

    ghost same_self: { (x : Self) → same x x };
}

impl Collection for () {
    type Item = ();

    ghost holds_nothing = { λ _. Unit {0} };

    ghost same = { λ _ _. Unit {0} };

    ghost pushes = { λ _ _ _. Unit {0} };

    ghost same_self = { λ _. tt };

    fn empty(_: Global) -> () {}

    fn push(&mut self, _: ()) -> Result<bool, AllocError> {
        Ok(false)
    }
}

impl Collection for Nil {
    type Item = Nil;

    ghost holds_nothing = { λ _. Unit {0} };

    ghost same = { λ _ _. Unit {0} };

    ghost pushes = { λ _ _ _. Unit {0} };

    ghost same_self = { λ _. tt };

    fn empty(_: Global) -> Nil {
        Nil
    }

    fn push(&mut self, _: Nil) -> Result<bool, AllocError> {
        Ok(false)
    }
}

impl<T: Drop> Collection for Vec<T> {
    ghost use Rattle.std.specs.Prelude.{refl};

    type Item = T;

    ghost holds_nothing = { λ v. v.items ≡ [] };

    ghost same = { λ v w. v.items ≡ w.items };

    ghost pushes = { λ v x w. w.items ≡ v.items ++ x ∷ [] };

    ghost same_self = { λ _. refl };

    fn empty(alloc: Global) -> Vec<T> {
        Vec::new(alloc)
    }

    fn push(&mut self, item: T) -> Result<bool, AllocError> {
        Vec::push(self, item)?;
        Ok(true)
    }
}

impl<T: Ord + Drop> Collection for BTreeSet<T> {
    ghost use Rattle.std.specs.Prelude.{refl};

    type Item = T;

    ghost holds_nothing = { λ s. s.keys ≡ [] };

    ghost same = { λ s t. s.keys ≡ t.keys };

    ghost pushes = { λ s x t. t.keys ≡ insert_key T.cmp s.keys x };

    ghost same_self = { λ _. refl };

    fn empty(alloc: Global) -> BTreeSet<T> {
        BTreeSet::new(alloc)
    }

    fn push(&mut self, item: T) -> Result<bool, AllocError> {
        Ok(self.insert(item)?)
    }
}

impl Collection for TokenSet {
    ghost use Rattle.std.specs.Prelude.{refl};

    type Item = TokenSet;

    ghost holds_nothing = { λ s. s ≡ [] };

    ghost same = { λ s t. s ≡ t };

    ghost pushes = { λ s x t. (k : ℕ) → has t k ≡ (has s k || has x k) };

    ghost same_self = { λ _. refl };

    fn empty(alloc: Global) -> TokenSet {
        TokenSet::without_room(alloc)
    }

    fn push(&mut self, item: TokenSet) -> Result<bool, AllocError> {
        self.union_with(&item)
    }
}
