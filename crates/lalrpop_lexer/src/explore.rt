//! The transitions of one state of the automaton under way.

ghost use Rattle.std.specs.Prelude.{◌≡◌, ℕ, ◌<◌, List, Some, length, All, IfOk, OnOk, IfSome, vec_len};
ghost use Rattle.lalrpop_lexer_nfa.specs.Paths.{nfa_view};
ghost use Rattle.lalrpop_lexer.specs.States.{AreNumbered, HasKernel, IsInterned, AreInside};
ghost use Rattle.lalrpop_lexer.specs.Groups.{AreGroups};
ghost use Rattle.lalrpop_lexer.specs.Simulation.{AreApart};
ghost use Rattle.lalrpop_lexer.specs.Explore.{AreClassesOf, Explores, edges_view};

use crate::edge::{DfaEdge, push_edge};
use crate::groups::Groups;
use crate::kind::DfaStateIndex;
use crate::moves::moves;
use crate::states::States;
use lalrpop_lexer_nfa::{Nfa, NfaStateSet, Test};
use std::alloc::{AllocError, Global};

impl States {
    /// The state that edges to the states `kernel` lead to, which may be known.
    fn known_or_found(
        &mut self,
        alloc: Global,
        nfa: &Nfa,
        kernel: &[usize],
        known: &mut Option<usize>,
        scratch: &mut NfaStateSet,
    ) -> Result<usize, AllocError>
        requires bound { vec_len scratch.old.places ≡ vec_len nfa.now.states }
        requires inside { All (λ q. q < vec_len nfa.now.states) kernel.now }
        requires sets { AreInside (vec_len nfa.now.states) self.old.sets }
        requires numbered { AreNumbered (nfa_view nfa.now) self.old.sets self.old.numbers }
        requires known { IfSome known.old (λ n. HasKernel self.old.numbers n kernel.now) }
        ensures kernel { IfOk result (λ n. HasKernel self.new.numbers n kernel.now) }
        ensures known { IfOk result (λ n. known.new ≡ Some n) }
        ensures kept { OnOk result ((m : ℕ) (k : List ℕ) → HasKernel self.old.numbers m k → HasKernel self.new.numbers m k) }
        ensures found { IfOk result (λ n. IsInterned (nfa_view nfa.now) kernel.now self.old.sets self.new.sets n) }
        ensures sets { OnOk result (AreInside (vec_len nfa.now.states) self.new.sets) }
        ensures numbered { OnOk result (AreNumbered (nfa_view nfa.now) self.new.sets self.new.numbers) }
        ensures bound { vec_len scratch.new.places ≡ vec_len scratch.old.places }
    {
        if let Some(number) = *known {
            return Ok(number);
        }
        let number = self.number_of(alloc, nfa, kernel, scratch)?;
        *known = Some(number);
        Ok(number)
    }

    /// The edges of one of the states, for the pieces that some edge of its set reads; of pieces side by side that lead to
    /// one state there is one edge. The states that they lead to are made where there are none yet; those of the pieces of
    /// one group are looked up once.
    pub(crate) fn explore(
        &mut self,
        alloc: Global,
        nfa: &Nfa,
        pieces: &[Test],
        groups: &Groups,
        state: usize,
        scratch: &mut NfaStateSet,
    ) -> Result<Vec<DfaEdge>, AllocError>
        requires state { state < length self.old.sets }
        requires pieces { AreClassesOf (nfa_view nfa.now) pieces.now }
        requires groups { AreGroups (nfa_view nfa.now) pieces.now groups.now.numbers.items groups.now.firsts.items }
        requires bound { vec_len scratch.old.places ≡ vec_len nfa.now.states }
        requires sets { AreInside (vec_len nfa.now.states) self.old.sets }
        requires numbered { AreNumbered (nfa_view nfa.now) self.old.sets self.old.numbers }
        ensures explored { IfOk result (λ out. Explores (nfa_view nfa.now) state self.old.sets self.new.sets (edges_view out.items)) }
        ensures apart { IfOk result (λ out. AreApart (edges_view out.items)) }
        ensures sets { OnOk result (AreInside (vec_len nfa.now.states) self.new.sets) }
        ensures numbered { OnOk result (AreNumbered (nfa_view nfa.now) self.new.sets self.new.numbers) }
        ensures bound { vec_len scratch.new.places ≡ vec_len scratch.old.places }
    {
        let targets = moves(alloc, nfa, self.sets.get(state), &groups.firsts)?;
        let mut known = vec![in alloc; None; groups.firsts.len()]?;
        let mut out = Vec::new(alloc);
        for i in 0..pieces.len() {
            let group = groups.numbers[i];
            if !targets[group].is_empty() {
                let to = self.known_or_found(
                    alloc,
                    nfa,
                    &targets[group],
                    &mut known[group],
                    scratch,
                )?;
                let edge = DfaEdge {
                    test: pieces[i],
                    to: DfaStateIndex(to),
                };
                push_edge(&mut out, edge)?;
            }
        }
        Ok(out)
    }
}
