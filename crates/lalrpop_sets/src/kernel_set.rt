//! Kernels in order of first sight, each with its number.

ghost use Rattle.std.specs.Prelude.{◌≡◌, ℕ, [], ◌+◌, length, IfOk, IfErr, MatchOption, slice_get, Some};
ghost use Rattle.std.specs.List.{IsDistinct};
ghost use Rattle.lalrpop_sets.specs.Queues.{number_in, queue_of, with_kernel};

use indexmap::IndexSet;
use std::alloc::{AllocError, Global};
use std::collections::VecDeque;
use std::hash::Hash;
use std::marker::Model;

/// What states are made of: kernels that are equal make one state.
pub trait Kernel: Eq + Hash + Drop + Sized {
    /// The index of a state.
    type Index;

    ghost index_at: { ℕ → Self.Index };

    /// The index of a state by its number.
    fn index(number: usize) -> Self::Index
        ensures { result ≡ index_at number };

    /// A copy that equals it.
    fn try_clone(&self, alloc: Global) -> Result<Self, AllocError>
        ensures { IfOk result (λ copy. copy ≡ self.now) };
}

/// Kernels in order of first sight, no two of them equal, and how many of them were given out: first in, first out.
#[derive(Drop)]
pub struct KernelSet<K: Eq + Hash> {
    alloc: Global,
    // All kernels, by hash.
    seen: IndexSet<K>,
    // Those that were not given yet.
    waiting: VecDeque<K>,
    // How many were given.
    given: usize,
}

impl<K: Eq + Hash> Model for KernelSet<K> {
    ghost use Rattle.std.specs.Prelude.{◌≡◌, ◌≤◌, drop, length};
    ghost use Rattle.std.specs.List.{IsDistinct};
    ghost use Rattle.lalrpop_sets.specs.Queues.{Queue, queue_of};

    ghost Value = { Queue K };

    ghost view = { λ it. queue_of it.seen.keys it.given };

    ghost invariant = { λ it. (it.given ≤ length it.seen.keys) × (it.waiting.items ≡ drop it.given it.seen.keys)
        × IsDistinct K.eq it.seen.keys };
}

impl<K: Kernel> KernelSet<K> {
    /// A set without kernels.
    pub fn new(alloc: Global) -> KernelSet<K>
        ensures { result ≡ queue_of [] 0 }
    {
        KernelSet {
            alloc,
            seen: IndexSet::new(alloc),
            waiting: VecDeque::new(alloc),
            given: 0,
        }
    }

    /// The index of the kernel: that of an equal one that is known, or else a new one, and then the kernel is the last.
    /// Where memory is refused, the set is as before.
    pub fn add_state(&mut self, kernel: K) -> Result<K::Index, AllocError>
        ensures added { IfOk result (λ _. self.new ≡ with_kernel K.eq self.old kernel) }
        ensures index { IfOk result (λ index. index ≡ K.index_at (number_in K.eq self.old.kernels kernel)) }
        ensures kept { IfErr result (λ _. self.new ≡ self.old) }
        ensures distinct { IsDistinct K.eq self.new.kernels }
    {
        if let Some(number) = self.seen.get_index_of(&kernel) {
            return Ok(K::index(number));
        }
        let copy = kernel.try_clone(self.alloc)?;
        self.waiting.reserve(1)?;
        let (number, _) = self.seen.insert_full(copy)?;
        self.waiting.push_back_reserved(kernel);
        Ok(K::index(number))
    }

    /// The first kernel that was not given yet.
    pub fn next(&mut self) -> Option<K>
        ensures given { MatchOption result (self.old.given ≡ length self.old.kernels)
            (λ kernel. slice_get self.old.kernels self.old.given ≡ Some kernel) }
        ensures goes_on { MatchOption result (self.new ≡ self.old)
            (λ _. self.new ≡ queue_of self.old.kernels (self.old.given + 1)) }
    {
        if self.given == self.seen.len() {
            return None;
        }
        let kernel = self.waiting.pop_front()?;
        self.given += 1;
        Some(kernel)
    }
}
