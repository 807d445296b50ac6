//! The states of the automaton under way, and the numbers by which they are found again.

ghost use Rattle.std.specs.Prelude.{◌≡◌, ℕ, ◌<◌, List, length, All, IfOk, OnOk, vec_len};
ghost use Rattle.std.specs.List.Sorted.{IsStrictlyIncreasing};
ghost use Rattle.lalrpop_lexer_nfa.specs.Paths.{nfa_view};
ghost use Rattle.lalrpop_lexer_nfa.specs.Sets.{IsEpsilonClosure};
ghost use Rattle.lalrpop_lexer.specs.States.{AreNumbered, HasKernel, IsInterned, AreInside};

use crate::kernels::Kernels;
use crate::slices::Slices;
use lalrpop_lexer_nfa::{Nfa, NfaStateSet};
use std::alloc::{AllocError, Global};

/// The states of the automaton under way.
#[derive(Drop)]
pub(crate) struct States {
    /// For each state, the states of the other automaton that its words lead to.
    pub(crate) sets: Slices<usize>,
    /// For each state's kernel, ascending and each member once, the state's number.
    pub(crate) numbers: Kernels,
}

/// Makes the set the states that edges which read nothing lead to from some states.
fn close_kernel(nfa: &Nfa, kernel: &[usize], set: &mut NfaStateSet) -> Result<(), AllocError>
    requires bound { vec_len set.old.places ≡ vec_len nfa.now.states }
    requires inside { All (λ q. q < vec_len nfa.now.states) kernel.now }
    ensures closed { OnOk result (IsEpsilonClosure (nfa_view nfa.now) kernel.now set.new.members.items) }
    ensures inside { OnOk result (All (λ q. q < vec_len nfa.now.states) set.new.members.items) }
    ensures bound { vec_len set.new.places ≡ vec_len set.old.places }
{
    set.clear();
    for i in 0..kernel.len() {
        set.insert(kernel[i])?;
    }
    nfa.close(set)?;
    Ok(())
}

impl States {
    /// The state that edges to the states of a kernel lead to, made now if there is none yet. The kernel's states ascend.
    fn number_of_ascending(
        &mut self,
        alloc: Global,
        nfa: &Nfa,
        kernel: &[usize],
        scratch: &mut NfaStateSet,
    ) -> Result<usize, AllocError>
        requires rises { IsStrictlyIncreasing kernel.now }
        requires bound { vec_len scratch.old.places ≡ vec_len nfa.now.states }
        requires inside { All (λ q. q < vec_len nfa.now.states) kernel.now }
        requires sets { AreInside (vec_len nfa.now.states) self.old.sets }
        requires numbered { AreNumbered (nfa_view nfa.now) self.old.sets self.old.numbers }
        ensures kernel { IfOk result (λ n. HasKernel self.new.numbers n kernel.now) }
        ensures seen { IfOk result (λ n. (m : ℕ) → HasKernel self.old.numbers m kernel.now
            → (n ≡ m) × (self.new.sets ≡ self.old.sets)) }
        ensures kept { OnOk result ((m : ℕ) (k : List ℕ) → HasKernel self.old.numbers m k → HasKernel self.new.numbers m k) }
        ensures found { IfOk result (λ n. IsInterned (nfa_view nfa.now) kernel.now self.old.sets self.new.sets n) }
        ensures sets { OnOk result (AreInside (vec_len nfa.now.states) self.new.sets) }
        ensures numbered { OnOk result (AreNumbered (nfa_view nfa.now) self.new.sets self.new.numbers) }
        ensures bound { vec_len scratch.new.places ≡ vec_len scratch.old.places }
    {
        if let Some(number) = self.numbers.get(kernel) {
            return Ok(number);
        }
        let number = self.sets.len();
        close_kernel(nfa, kernel, scratch)?;
        self.sets.push(scratch.members())?;
        self.numbers.insert(alloc, kernel, number)?;
        Ok(number)
    }

    /// The state that edges to the states `kernel` lead to, made now if there is none yet. A kernel that was seen is found,
    /// however its members are ordered and repeated.
    pub(crate) fn number_of(
        &mut self,
        alloc: Global,
        nfa: &Nfa,
        kernel: &[usize],
        scratch: &mut NfaStateSet,
    ) -> Result<usize, AllocError>
        requires bound { vec_len scratch.old.places ≡ vec_len nfa.now.states }
        requires inside { All (λ q. q < vec_len nfa.now.states) kernel.now }
        requires sets { AreInside (vec_len nfa.now.states) self.old.sets }
        requires numbered { AreNumbered (nfa_view nfa.now) self.old.sets self.old.numbers }
        ensures kernel { IfOk result (λ n. HasKernel self.new.numbers n kernel.now) }
        ensures seen { IfOk result (λ n. (m : ℕ) → HasKernel self.old.numbers m kernel.now
            → (n ≡ m) × (self.new.sets ≡ self.old.sets)) }
        ensures kept { OnOk result ((m : ℕ) (k : List ℕ) → HasKernel self.old.numbers m k → HasKernel self.new.numbers m k) }
        ensures found { IfOk result (λ n. IsInterned (nfa_view nfa.now) kernel.now self.old.sets self.new.sets n) }
        ensures sets { OnOk result (AreInside (vec_len nfa.now.states) self.new.sets) }
        ensures numbered { OnOk result (AreNumbered (nfa_view nfa.now) self.new.sets self.new.numbers) }
        ensures bound { vec_len scratch.new.places ≡ vec_len scratch.old.places }
    {
        if kernel.len() == 1 {
            return self.number_of_ascending(alloc, nfa, kernel, scratch);
        }
        let mut key = Vec::from_slice(alloc, kernel)?;
        key.sort_unstable();
        key.dedup();
        let number = self.number_of_ascending(alloc, nfa, &key, scratch)?;
        Ok(number)
    }
}
