//! What is asked of one state: its kind, and its labelled edges of one kind.

ghost use Rattle.std.specs.Prelude.{◌≡◌, ◌==◌, ℕ, ◌<◌, List, All, filter, vec_len, IsTrue, ◌↔◌};
ghost use Rattle.std.specs.Iterator.{YieldsFirstRef, item_count};
ghost use Rattle.lalrpop_lexer_nfa.specs.Kinds.{IsPlaceOf};
ghost use Rattle.lalrpop_lexer_nfa.specs.Labels.{front_from};
ghost use Rattle.lalrpop_lexer_nfa.specs.Paths.{HasKind, nfa_view};

use crate::automaton::{Nfa, REJECT};
use crate::edge::{Edge, NfaStateIndex};
use crate::label::EdgeLabel;
use crate::state::StateKind;

/// The edges of one kind that come from one state, in the order in which they were added.
#[derive(Drop)]
pub struct EdgeIterator<'nfa, L> {
    edges: &'nfa [Edge<L>],
    from: NfaStateIndex,
}

impl<'nfa, L> Iterator for EdgeIterator<'nfa, L> {
    type Item = &'nfa Edge<L>;

    ghost next_gives = { YieldsFirstRef (λ s. front_from s.from.0 s.edges.now) };

    ghost remaining = { item_count (λ s. front_from s.from.0 s.edges.now) };

    fn next(&mut self) -> Option<&'nfa Edge<L>> {
        let (edge, rest) = self.edges.split_first()?;
        if edge.from != self.from {
            return None;
        }
        self.edges = rest;
        Some(edge)
    }
}

impl Nfa {
    /// How many states the automaton has.
    pub fn state_count(&self) -> usize
        ensures { result ≡ vec_len self.now.states }
    {
        self.states.len()
    }

    /// The kind of one of the automaton's states.
    pub fn kind(&self, from: NfaStateIndex) -> StateKind
        requires { from.0 < vec_len self.now.states }
        ensures kind { HasKind (nfa_view self.now) from.0 result }
        ensures place { IsPlaceOf result from.0 }
    {
        self.states[from.0].kind
    }

    /// Whether the words that lead to the state are accepted.
    pub fn is_accepting_state(&self, from: NfaStateIndex) -> bool
        requires { from.0 < vec_len self.now.states }
        ensures { IsTrue result ↔ HasKind (nfa_view self.now) from.0 StateKind.Accept }
    {
        self.kind(from) == StateKind::Accept
    }

    /// Whether no word that leads on from the state is accepted: so it is at `REJECT`, and there alone.
    pub fn is_rejecting_state(&self, from: NfaStateIndex) -> bool
        requires { from.0 < vec_len self.now.states }
        ensures kind { IsTrue result ↔ HasKind (nfa_view self.now) from.0 StateKind.Reject }
        ensures place { IsTrue result ↔ (from.0 ≡ REJECT.0) }
    {
        self.kind(from) == StateKind::Reject
    }

    /// The edges of one kind that come from one of the automaton's states, in the order in which they were added. Each
    /// leads to a state.
    pub fn edges<L: EdgeLabel>(&self, from: NfaStateIndex) -> EdgeIterator<'_, L>
        requires { from.0 < vec_len self.now.states }
        ensures edges { front_from result.from.0 result.edges.now ≡ filter (λ e. e.from.0 == from.0) (L.list self.now.edges) }
        ensures targets { All (λ e. e.to.0 < vec_len self.now.states) (L.list self.now.edges) }
    {
        let first = *L::first(&self.states[from.0]);
        let (_, edges) = L::vec(&self.edges).split_at(first);
        EdgeIterator { edges, from }
    }
}
