//! How an automaton grows: new states, epsilon edges and transitions.

ghost use Rattle.std.specs.Prelude.{◌≡◌, ◌≢◌, ℕ, ◌<◌, ◌++◌, ◌∷◌, [], length, All, IfOk, OnOk, OnErr, vec_len};
ghost use Rattle.lalrpop_lexer_nfa.specs.EdgeLists.{sources, MayComeNext};
ghost use Rattle.lalrpop_lexer_nfa.specs.Growth.{HasNoEpsilonEdges, HasNoTransitionEdges, IsNewState, HasNewEpsilonEdges, HasNewTransitions, IsSameGraph, BeginsRun};
ghost use Rattle.lalrpop_lexer_nfa.specs.Paths.{nfa_view};
ghost use Rattle.lalrpop_lexer_nfa.specs.Fragments.{IsBranch, IsReader};
ghost use Rattle.lalrpop_lexer_pattern.specs.Ranges.{InRanges};

use crate::automaton::{Nfa, REJECT};
use crate::edge::{Edge, NfaStateIndex, Noop, Other};
use crate::state::{State, StateKind};
use crate::test::Test;
use lalrpop_lexer_pattern::Range;
use std::alloc::AllocError;

/// Adds an edge at the end of a list, and answers whether it is the first of its run.
fn push_edge<L: Drop>(
    list: &mut Vec<Edge<L>>,
    from: usize,
    label: L,
    to: usize,
) -> Result<bool, AllocError>
    ensures pushed { OnOk result (list.new.items
        ≡ list.old.items ++ (record { from = record { 0 = from }; label = label; to = record { 0 = to } }) ∷ []) }
    ensures begins { IfOk result (BeginsRun (sources list.old.items) from) }
    ensures kept { OnErr result (list.new.items ≡ list.old.items) }
{
    let begins = match list.last() {
        Some(edge) => edge.from.0 != from,
        None => true,
    };
    list.push(Edge {
        from: NfaStateIndex(from),
        label,
        to: NfaStateIndex(to),
    })?;
    Ok(begins)
}

impl Nfa {
    /// Adds a state without edges, which neither accepts nor rejects.
    pub(crate) fn new_state(&mut self) -> Result<usize, AllocError>
        ensures state { IfOk result (λ s. IsNewState (nfa_view self.old) (nfa_view self.new) s) }
        ensures others { OnOk result (self.new.edges.other_edges.items ≡ self.old.edges.other_edges.items) }
    {
        let state = self.states.len();
        self.states.push(State {
            kind: StateKind::Neither,
            first_noop_edge: self.edges.noop_edges.len(),
            first_test_edge: self.edges.test_edges.len(),
            first_other_edge: self.edges.other_edges.len(),
        })?;
        Ok(state)
    }

    /// Makes room for so many more states.
    pub(crate) fn make_room(&mut self, more: usize) -> Result<(), AllocError>
        ensures same { nfa_view self.new ≡ nfa_view self.old }
        ensures count { vec_len self.new.states ≡ vec_len self.old.states }
    {
        self.states.reserve(more)
    }

    /// Adds an epsilon edge from a state of which others, if it has any, stand last in their list.
    fn push_noop(&mut self, from: usize, to: usize) -> Result<(), AllocError>
        requires from { from < vec_len self.old.states }
        requires leaves { from ≢ REJECT.0 }
        requires to { to < vec_len self.old.states }
        requires last { MayComeNext (sources self.old.edges.noop_edges.items) from }
        ensures noops { OnOk result (HasNewEpsilonEdges (nfa_view self.old) (nfa_view self.new) from (to ∷ [])) }
        ensures last { OnOk result (MayComeNext (sources self.new.edges.noop_edges.items) from) }
    {
        let place = self.edges.noop_edges.len();
        if push_edge(&mut self.edges.noop_edges, from, Noop, to)? {
            self.states[from].first_noop_edge = place;
        }
        Ok(())
    }
}

impl Nfa {
    /// Adds a transition that reads a number from `start` to `end`, from a state of which others, if it has any, stand
    /// last in their list.
    fn push_test(&mut self, from: usize, start: u32, end: u32, to: usize) -> Result<(), AllocError>
        requires from { from < vec_len self.old.states }
        requires leaves { from ≢ REJECT.0 }
        requires to { to < vec_len self.old.states }
        requires last { MayComeNext (sources self.old.edges.test_edges.items) from }
        ensures tests { OnOk result (HasNewTransitions (nfa_view self.old) (nfa_view self.new) from ((record { start = start; end = end }) ∷ []) to) }
        ensures last { OnOk result (MayComeNext (sources self.new.edges.test_edges.items) from) }
        ensures others { OnOk result (self.new.edges.other_edges.items ≡ self.old.edges.other_edges.items) }
    {
        let place = self.edges.test_edges.len();
        if push_edge(&mut self.edges.test_edges, from, Test { start, end }, to)? {
            self.states[from].first_test_edge = place;
        }
        Ok(())
    }

    /// Adds an edge to `REJECT` for what no test of the state `from` holds.
    fn push_other(&mut self, from: usize) -> Result<(), AllocError>
        requires from { from < vec_len self.old.states }
        requires leaves { from ≢ REJECT.0 }
        requires last { MayComeNext (sources self.old.edges.other_edges.items) from }
        ensures same { OnOk result (IsSameGraph (nfa_view self.old) (nfa_view self.new)) }
    {
        let place = self.edges.other_edges.len();
        if push_edge(&mut self.edges.other_edges, from, Other, REJECT.0)? {
            self.states[from].first_other_edge = place;
        }
        Ok(())
    }
}

impl Nfa {
    /// Adds epsilon edges from a state without any to each target.
    pub(crate) fn push_noops(&mut self, from: usize, targets: &[usize]) -> Result<(), AllocError>
        requires from { from < vec_len self.old.states }
        requires leaves { from ≢ REJECT.0 }
        requires targets { All (λ r. r < vec_len self.old.states) targets.now }
        requires none { HasNoEpsilonEdges (nfa_view self.old) from }
        ensures { OnOk result (HasNewEpsilonEdges (nfa_view self.old) (nfa_view self.new) from targets.now) }
    {
        for i in 0..targets.len() {
            self.push_noop(from, targets[i])?;
        }
        Ok(())
    }

    /// Adds transitions that read the ranges from a state without any to another.
    fn push_tests(&mut self, from: usize, ranges: &[Range], to: usize) -> Result<(), AllocError>
        requires from { from < vec_len self.old.states }
        requires leaves { from ≢ REJECT.0 }
        requires to { to < vec_len self.old.states }
        requires none { HasNoTransitionEdges (nfa_view self.old) from }
        ensures tests { OnOk result (HasNewTransitions (nfa_view self.old) (nfa_view self.new) from ranges.now to) }
        ensures others { OnOk result (self.new.edges.other_edges.items ≡ self.old.edges.other_edges.items) }
    {
        for i in 0..ranges.len() {
            let range = ranges[i];
            self.push_test(from, range.start, range.end, to)?;
        }
        Ok(())
    }

    /// Adds a state that goes on at each of the targets.
    pub(crate) fn new_branch(&mut self, targets: &[usize]) -> Result<usize, AllocError>
        requires { All (λ r. r < vec_len self.old.states) targets.now }
        ensures { IfOk result (λ s. IsBranch (nfa_view self.old) (nfa_view self.new) s targets.now) }
    {
        let state = self.new_state()?;
        self.push_noops(state, targets)?;
        Ok(state)
    }

    /// Adds a state that reads a number of the ranges and then goes on at `to`.
    pub(crate) fn new_reader(&mut self, ranges: &[Range], to: usize) -> Result<usize, AllocError>
        requires { to < vec_len self.old.states }
        ensures { IfOk result (λ s. IsReader (nfa_view self.old) (nfa_view self.new) s to (InRanges ranges.now)) }
    {
        let state = self.new_state()?;
        self.push_tests(state, ranges, to)?;
        self.push_other(state)?;
        Ok(state)
    }
}
