//! Where sets of states lead: the epsilon closure, and the step by one character.

ghost use Rattle.std.specs.Prelude.{◌≡◌, ℕ, ◌<◌, All, OnOk, vec_len};
ghost use Rattle.lalrpop_lexer_nfa.specs.Paths.{nfa_view};
ghost use Rattle.lalrpop_lexer_nfa.specs.Sets.{IsEpsilonClosure, IsSubsetStep, HasEpsilonTargets, AddsTransitionTargets};

use crate::automaton::Nfa;
use crate::edge::{NfaStateIndex, Noop};
use crate::state_set::NfaStateSet;
use crate::test::Test;
use std::alloc::AllocError;

impl Nfa {
    /// Adds the states that the epsilon edges from `state` lead to.
    fn insert_targets(&self, state: usize, set: &mut NfaStateSet) -> Result<(), AllocError>
        requires state { state < vec_len self.now.states }
        requires bound { vec_len set.old.places ≡ vec_len self.now.states }
        ensures targets { OnOk result (HasEpsilonTargets (nfa_view self.now) state set.old.members.items set.new.members.items) }
        ensures bound { vec_len set.new.places ≡ vec_len set.old.places }
    {
        for edge in self.edges::<Noop>(NfaStateIndex(state)) {
            set.insert(edge.to.0)?;
        }
        Ok(())
    }

    /// Adds to the set each state that epsilon edges lead to from its members: it becomes its epsilon closure.
    pub fn close(&self, set: &mut NfaStateSet) -> Result<(), AllocError>
        requires bound { vec_len set.old.places ≡ vec_len self.now.states }
        requires inside { All (λ q. q < vec_len self.now.states) set.old.members.items }
        ensures closed { OnOk result (IsEpsilonClosure (nfa_view self.now) set.old.members.items set.new.members.items) }
        ensures inside { OnOk result (All (λ q. q < vec_len self.now.states) set.new.members.items) }
        ensures bound { vec_len set.new.places ≡ vec_len set.old.places }
    {
        let mut done = 0;
        while done < set.members().len() {
            let state = set.members()[done];
            self.insert_targets(state, set)?;
            done += 1;
        }
        Ok(())
    }

    /// Adds the states that the transitions from `state` lead to which read the number.
    fn insert_read(
        &self,
        state: usize,
        number: u32,
        set: &mut NfaStateSet,
    ) -> Result<(), AllocError>
        requires state { state < vec_len self.now.states }
        requires bound { vec_len set.old.places ≡ vec_len self.now.states }
        ensures read { OnOk result (AddsTransitionTargets (nfa_view self.now) state number set.old.members.items set.new.members.items) }
        ensures bound { vec_len set.new.places ≡ vec_len set.old.places }
    {
        for edge in self.edges::<Test>(NfaStateIndex(state)) {
            if edge.label.contains_u32(number) {
                set.insert(edge.to.0)?;
            }
        }
        Ok(())
    }

    /// Makes `next` the states that the number leads to from those of `set`.
    pub fn step(
        &self,
        set: &NfaStateSet,
        number: u32,
        next: &mut NfaStateSet,
    ) -> Result<(), AllocError>
        requires inside { All (λ q. q < vec_len self.now.states) set.now.members.items }
        requires bound { vec_len next.old.places ≡ vec_len self.now.states }
        ensures step { OnOk result (IsSubsetStep (nfa_view self.now) set.now.members.items number next.new.members.items) }
        ensures inside { OnOk result (All (λ q. q < vec_len self.now.states) next.new.members.items) }
        ensures bound { vec_len next.new.places ≡ vec_len next.old.places }
    {
        next.clear();
        let from = set.members();
        for i in 0..from.len() {
            self.insert_read(from[i], number, next)?;
        }
        self.close(next)?;
        Ok(())
    }
}
