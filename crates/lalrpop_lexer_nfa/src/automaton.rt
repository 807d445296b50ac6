//! Automata as lists of states and labelled edges, and the states that each of them has.

ghost use Rattle.std.specs.Prelude.{◌≡◌, ◌≢◌, ℕ, ◌<◌, All, map, vec_len};
ghost use Rattle.lalrpop_lexer_nfa.specs.EdgeLists.{sources, HasRuns};
ghost use Rattle.lalrpop_lexer_nfa.specs.Kinds.{kinds_of, AreKindsOf};
ghost use Rattle.std.proofs.Props.{props};
ghost use Rattle.lalrpop_lexer_nfa.specs.declared.automaton.TheConstants.{REJECT};

use crate::edge::NfaStateIndex;
use crate::state::{Edges, State};

/// The state in which an automaton for one pattern accepts.
pub const ACCEPT: NfaStateIndex = NfaStateIndex(0);

/// The state that edges labelled `Other` lead to, and that nothing leads out of.
pub const REJECT: NfaStateIndex = NfaStateIndex(1);

/// The state in which an automaton for one pattern starts.
pub const START: NfaStateIndex = NfaStateIndex(2);

/// Where the accepting states of an automaton for several patterns begin.
pub const FIRST_ACCEPT: usize = 3;

/// An automaton that need not know which of its edges to take.
#[derive(Drop)]
pub struct Nfa {
    pub(crate) states: Vec<State>,
    pub(crate) edges: Edges,
    pub ghost has_start: { 2 < vec_len states },
    pub ghost noops_inside: { All (λ e. e.from.0 < vec_len states) edges.noop_edges.items },
    pub ghost noop_targets: { All (λ e. e.to.0 < vec_len states) edges.noop_edges.items },
    pub ghost tests_inside: { All (λ e. e.from.0 < vec_len states) edges.test_edges.items },
    pub ghost test_targets: { All (λ e. e.to.0 < vec_len states) edges.test_edges.items },
    pub ghost others_inside: { All (λ e. e.from.0 < vec_len states) edges.other_edges.items },
    pub ghost other_targets: { All (λ e. e.to.0 ≡ REJECT.0) edges.other_edges.items },
    pub ghost noops_leave: { All (λ e. e.from.0 ≢ REJECT.0) edges.noop_edges.items },
    pub ghost tests_leave: { All (λ e. e.from.0 ≢ REJECT.0) edges.test_edges.items },
    pub ghost others_leave: { All (λ e. e.from.0 ≢ REJECT.0) edges.other_edges.items },
    pub ghost kinds: { AreKindsOf (kinds_of states.items) } by { Prim.hlevel props },
    pub ghost noop_runs: { HasRuns (map (λ s. s.first_noop_edge) states.items) (sources edges.noop_edges.items) },
    pub ghost test_runs: { HasRuns (map (λ s. s.first_test_edge) states.items) (sources edges.test_edges.items) },
    pub ghost other_runs: { HasRuns (map (λ s. s.first_other_edge) states.items) (sources edges.other_edges.items) },
}
