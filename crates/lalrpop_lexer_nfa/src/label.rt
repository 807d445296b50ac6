//! The kinds of labelled edges, and the list of an automaton that has those of a kind.

ghost use Rattle.std.specs.Prelude.{◌≡◌, ℕ, ◌<◌, List, All, map, refl};
ghost use Rattle.std.specs.Borrow.{sem};
ghost use Rattle.std.specs.declared.vec.Vec.{Vec};
ghost use Rattle.std.specs.declared.alloc.Global.{Global};
ghost use Rattle.lalrpop_lexer_nfa.specs.EdgeLists.{sources, HasRuns};
ghost use Rattle.lalrpop_lexer_nfa.specs.Labels.{AreRuns, LeadInside};
ghost use Rattle.lalrpop_lexer_nfa.specs.Lending.{LendsList, LendsPlace};
ghost use Rattle.lalrpop_lexer_nfa.specs.declared.edge.Edge.{Edge};
ghost use Rattle.lalrpop_lexer_nfa.specs.declared.state.State.{State};
ghost use Rattle.lalrpop_lexer_nfa.specs.declared.state.Edges.{Edges};

use crate::edge::{Edge, Noop, Other};
use crate::state::{Edges, State};
use crate::test::Test;

/// A kind of edge, named by its label: which list of an automaton has its edges, and where a state's begin there.
pub trait EdgeLabel: Sized {
    ghost list: { Edges → List (Edge Self) };

    ghost place: { State → ℕ };

    /// The edges where the kind's list is replaced, and nothing else.
    ghost with_list: { Edges → Vec (Edge Self) Global → Edges };

    /// The state where the index of the kind's list is replaced, and nothing else.
    ghost with_place: { State → ℕ → State };

    /// The kind's list, to be changed.
    fn vec_mut(edges: &mut Edges) -> &mut Vec<Edge<Self>>
        ensures* writes_back { sem 𝓛 (LendsList Self.row edges.entry result (with_list edges.old)) }
        ensures list { result.now.items ≡ list edges.old };

    /// The kind's list.
    fn vec(edges: &Edges) -> &Vec<Edge<Self>>
        ensures { result.now.items ≡ list edges.now };

    /// Where the state's edges begin in the kind's list, to be changed.
    fn first_mut(state: &mut State) -> &mut usize
        ensures* writes_back { sem 𝓛 (LendsPlace state.entry result (with_place state.old)) }
        ensures place { result.now ≡ place state.old };

    /// Where the state's edges begin in the kind's list.
    fn first(state: &State) -> &usize
        ensures { result.now ≡ place state.now };

    ghost list_replaced: { (edges : Edges) (new : Vec (Edge Self) Global) → list (with_list edges new) ≡ new.items };

    ghost place_replaced: { (state : State) (new : ℕ) → place (with_place state new) ≡ new };

    ghost kind_stays: { (state : State) (new : ℕ) → (with_place state new).kind ≡ state.kind };

    ghost targets: { (count : ℕ) (edges : Edges) → LeadInside count edges → All (λ e. e.to.0 < count) (list edges) };

    ghost runs: { (states : List State) (edges : Edges) → AreRuns states edges → HasRuns (map place states) (sources (list edges)) };
}

impl EdgeLabel for Noop {
    ghost list = { λ edges. edges.noop_edges.items };

    ghost place = { λ state. state.first_noop_edge };

    ghost with_list = { λ edges list. record edges { noop_edges = list } };

    ghost with_place = { λ state place. record state { first_noop_edge = place } };

    ghost list_replaced = { λ edges new. refl };

    ghost place_replaced = { λ state new. refl };

    ghost kind_stays = { λ state new. refl };

    ghost targets = { λ count edges h. h.noop };

    ghost runs = { λ states edges h. h.noop };

    fn vec_mut(edges: &mut Edges) -> &mut Vec<Edge<Noop>> {
        &mut edges.noop_edges
    }

    fn vec(edges: &Edges) -> &Vec<Edge<Noop>> {
        &edges.noop_edges
    }

    fn first_mut(state: &mut State) -> &mut usize {
        &mut state.first_noop_edge
    }

    fn first(state: &State) -> &usize {
        &state.first_noop_edge
    }
}

impl EdgeLabel for Test {
    ghost list = { λ edges. edges.test_edges.items };

    ghost place = { λ state. state.first_test_edge };

    ghost with_list = { λ edges list. record edges { test_edges = list } };

    ghost with_place = { λ state place. record state { first_test_edge = place } };

    ghost list_replaced = { λ edges new. refl };

    ghost place_replaced = { λ state new. refl };

    ghost kind_stays = { λ state new. refl };

    ghost targets = { λ count edges h. h.test };

    ghost runs = { λ states edges h. h.test };

    fn vec_mut(edges: &mut Edges) -> &mut Vec<Edge<Test>> {
        &mut edges.test_edges
    }

    fn vec(edges: &Edges) -> &Vec<Edge<Test>> {
        &edges.test_edges
    }

    fn first_mut(state: &mut State) -> &mut usize {
        &mut state.first_test_edge
    }

    fn first(state: &State) -> &usize {
        &state.first_test_edge
    }
}

impl EdgeLabel for Other {
    ghost list = { λ edges. edges.other_edges.items };

    ghost place = { λ state. state.first_other_edge };

    ghost with_list = { λ edges list. record edges { other_edges = list } };

    ghost with_place = { λ state place. record state { first_other_edge = place } };

    ghost list_replaced = { λ edges new. refl };

    ghost place_replaced = { λ state new. refl };

    ghost kind_stays = { λ state new. refl };

    ghost targets = { λ count edges h. h.other };

    ghost runs = { λ states edges h. h.other };

    fn vec_mut(edges: &mut Edges) -> &mut Vec<Edge<Other>> {
        &mut edges.other_edges
    }

    fn vec(edges: &Edges) -> &Vec<Edge<Other>> {
        &edges.other_edges
    }

    fn first_mut(state: &mut State) -> &mut usize {
        &mut state.first_other_edge
    }

    fn first(state: &State) -> &usize {
        &state.first_other_edge
    }
}
