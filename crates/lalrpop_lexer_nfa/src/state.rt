//! States with their kinds, and the lists of labelled edges beside them.

ghost use Rattle.std.specs.Prelude.{◌≡◌, []};

use crate::edge::{Edge, Noop, Other};
use crate::test::Test;
use std::alloc::Global;

/// What a state says of the words that lead to it.
#[derive(Clone, Copy, PartialEq, Eq)]
pub enum StateKind {
    /// They are accepted.
    Accept,
    /// Neither they nor longer words are accepted.
    Reject,
    /// Nothing of them alone.
    Neither,
}

/// A state: its kind, and where its edges begin in each list.
#[derive(Clone, Copy)]
pub struct State {
    pub(crate) kind: StateKind,
    pub(crate) first_noop_edge: usize,
    pub(crate) first_test_edge: usize,
    pub(crate) first_other_edge: usize,
}

impl State {
    /// A state of that kind in front of all edges.
    pub fn new(kind: StateKind) -> State
        ensures kind { result.kind ≡ kind }
        ensures noop { result.first_noop_edge ≡ 0 }
        ensures test { result.first_test_edge ≡ 0 }
        ensures other { result.first_other_edge ≡ 0 }
    {
        State {
            kind,
            first_noop_edge: 0,
            first_test_edge: 0,
            first_other_edge: 0,
        }
    }
}

/// The edges of an automaton by their kinds.
#[derive(Drop)]
pub struct Edges {
    pub(crate) noop_edges: Vec<Edge<Noop>>,
    pub(crate) test_edges: Vec<Edge<Test>>,
    pub(crate) other_edges: Vec<Edge<Other>>,
}

impl Edges {
    /// No edges.
    pub fn new(alloc: Global) -> Edges
        ensures noop { result.noop_edges.items ≡ [] }
        ensures test { result.test_edges.items ≡ [] }
        ensures other { result.other_edges.items ≡ [] }
    {
        Edges {
            noop_edges: Vec::new(alloc),
            test_edges: Vec::new(alloc),
            other_edges: Vec::new(alloc),
        }
    }
}
