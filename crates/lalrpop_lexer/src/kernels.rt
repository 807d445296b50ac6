//! Kernels of states with their numbers.

ghost use Rattle.std.specs.Prelude.{◌≡◌, ℕ, ◌∷◌, ◌<◌, List, [], Contains, IfOk, OnOk, MatchOption};
ghost use Rattle.lalrpop_lexer.specs.Kernels.{IsSingle, HasOneKernelMore};

use std::alloc::{AllocError, Global};
use std::collections::BTreeMap;
use std::marker::Model;

/// Kernels with their numbers. Most have one state, and take no block of their own.
#[derive(Drop)]
pub(crate) struct Kernels {
    // For each of the first states, the number of the kernel that has it alone.
    singles: Vec<Option<usize>>,
    // The numbers of all other kernels.
    others: BTreeMap<Vec<usize>, usize>,
}

impl Model for Kernels {
    ghost use Rattle.std.specs.Prelude.{ℕ, List, ◌++◌, length, All};
    ghost use Rattle.lalrpop_lexer.specs.Kernels.{single_kernels, mapped_kernels, IsSingle};

    ghost Value = { List (List ℕ × ℕ) };

    ghost view = { λ it. single_kernels 0 it.singles.items ++ mapped_kernels it.others.entries };

    ghost invariant = { λ it. All (λ k. IsSingle (length it.singles.items) k.0 → ⊥) (mapped_kernels it.others.entries) };
}

/// The state that the kernel has alone, if it is one below the bound.
fn single_in(kernel: &[usize], bound: usize) -> Option<usize>
    ensures { MatchOption result (IsSingle bound kernel.now → ⊥) (λ q. (kernel.now ≡ q ∷ []) × (q < bound)) }
{
    if kernel.len() == 1 && kernel[0] < bound {
        Some(kernel[0])
    } else {
        None
    }
}

impl Kernels {
    /// No kernels. Those of one of the first `count` states are to take no block.
    pub(crate) fn new(alloc: Global, count: usize) -> Result<Kernels, AllocError>
        ensures { IfOk result (λ kernels. kernels ≡ []) }
    {
        Ok(Kernels {
            singles: vec![in alloc; None; count]?,
            others: BTreeMap::new(alloc),
        })
    }

    /// The kernel's number, if it has one.
    pub(crate) fn get(&self, kernel: &[usize]) -> Option<usize>
        ensures { MatchOption result ((n : ℕ) → Contains self.now (kernel.now, n) → ⊥) (λ n. Contains self.now (kernel.now, n)) }
    {
        if let Some(state) = single_in(kernel, self.singles.len()) {
            return self.singles[state];
        }
        self.others.get(kernel).copied()
    }

    /// Numbers a kernel that has no number yet.
    pub(crate) fn insert(
        &mut self,
        alloc: Global,
        kernel: &[usize],
        number: usize,
    ) -> Result<(), AllocError>
        requires { (n : ℕ) → Contains self.old (kernel.now, n) → ⊥ }
        ensures { OnOk result (HasOneKernelMore (kernel.now, number) self.old self.new) }
    {
        if let Some(state) = single_in(kernel, self.singles.len()) {
            self.singles[state] = Some(number);
            return Ok(());
        }
        let key = Vec::from_slice(alloc, kernel)?;
        self.others.insert(key, number)?;
        Ok(())
    }
}
