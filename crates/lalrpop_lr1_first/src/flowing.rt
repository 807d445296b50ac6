//! Lookaheads that flow along edges between slots, until nothing comes.

ghost use Rattle.std.specs.Prelude.{◌≡◌, ◌<◌, ◌+◌, ◌||◌, ◌↔◌, ℕ, true, false};
ghost use Rattle.std.specs.Prelude.{IsTrue, IsFalse, length, List, IfOk, nat_eq};
ghost use Rattle.lalrpop_sets.specs.AscendingLists.{has};
ghost use Rattle.lalrpop_sets.specs.Tokens.{eof_number};
ghost use Rattle.lalrpop_lr1_first.specs.Flows.{EdgesAreWithin, Flows, MarksAreWithin, all_marks, slot_marks};
ghost use Rattle.lalrpop_lr1_first.specs.FlowEdges.{RestsAreWithin, edges_seen};
ghost use Rattle.lalrpop_lr1_first.specs.FlowSteps.{FlowsTo};
ghost use Rattle.lalrpop_lr1_first.specs.Numbers.{set_of_number};

use crate::closure_lookahead::ClosureLookahead;
use crate::walk::place_at;
use lalrpop_grammar_repr::TerminalSet;
use lalrpop_sets::TokenSet;
use std::alloc::{AllocError, Global};

/// An edge: what stands in one slot brings something to another, with the first tokens of a rest.
#[derive(Drop)]
pub struct Edge {
    /// The slot from which it leads.
    pub from: usize,
    /// The slot to which it leads.
    pub to: usize,
    /// The place of the rest, among the first sets.
    pub rest: usize,
}

/// Joins into what stands in a slot, and says whether something came.
pub(crate) fn join<L: ClosureLookahead>(slot: &mut Option<L>, other: L) -> Result<bool, AllocError>
    ensures joined { IfOk result (λ changed. (there k : ℕ) → has (slot_marks L.marks there slot.new) k
        ≡ (has (slot_marks L.marks there slot.old) k || (nat_eq there k || has (L.marks other) k))) }
    ensures same { IfOk result (λ changed. IsFalse changed → slot.new ≡ slot.old) }
    ensures grown { IfOk result (λ changed. IsTrue changed → (there : ℕ)
        → ((j : ℕ) → has (L.marks other) j ≡ true → j < there)
        → (k : ℕ) × (has (slot_marks L.marks there slot.new) k ≡ true) × (has (slot_marks L.marks there slot.old) k ≡ false)) }
{
    match slot {
        None => {
            *slot = Some(other);
            Ok(true)
        }
        Some(lookahead) => lookahead.join(&other),
    }
}

/// Lets each edge carry what its source has, from the first edge on or from the last, and says whether something came.
fn sweep<L: ClosureLookahead>(
    alloc: Global,
    terminals: &TerminalSet,
    firsts: &[TokenSet],
    edges: &[Edge],
    forward: bool,
    slots: &mut Vec<Option<L>>,
) -> Result<bool, AllocError>
    requires rests { RestsAreWithin (length firsts.now) edges.now }
    requires edges { EdgesAreWithin (eof_number terminals.now) (length slots.old.items) (edges_seen firsts.now edges.now) }
    requires marks { MarksAreWithin L.marks (eof_number terminals.now) slots.old.items }
    ensures marks { IfOk result (λ _. MarksAreWithin L.marks (eof_number terminals.now) slots.new.items) }
    ensures count { length slots.new.items ≡ length slots.old.items }
    ensures flows { let end = eof_number terminals.now in
        IfOk result (λ changed. FlowsTo L.firsts end (edges_seen firsts.now edges.now) forward (length edges.now)
        (all_marks L.marks (end + 2) slots.old.items) (all_marks L.marks (end + 2) slots.new.items) changed) }
{
    let mut changed = false;
    for step in 0..edges.len() {
        let number = place_at(edges.len(), step, forward);
        let edge = &edges[number];
        match &slots[edge.from] {
            None => {}
            Some(lookahead) => {
                let came = L::through(alloc, terminals, &firsts[edge.rest], lookahead)?;
                if join(&mut slots[edge.to], came)? {
                    changed = true;
                }
            }
        }
    }
    Ok(changed)
}

/// Lets lookaheads flow along the edges, there and back in turn, until nothing comes: afterwards the slots have just what flows.
pub fn flow<L: ClosureLookahead>(
    alloc: Global,
    terminals: &TerminalSet,
    firsts: &[TokenSet],
    edges: &[Edge],
    slots: &mut Vec<Option<L>>,
) -> Result<(), AllocError>
    requires rests { RestsAreWithin (length firsts.now) edges.now }
    requires edges { EdgesAreWithin (eof_number terminals.now) (length slots.old.items) (edges_seen firsts.now edges.now) }
    requires marks { MarksAreWithin L.marks (eof_number terminals.now) slots.old.items }
    ensures count { length slots.new.items ≡ length slots.old.items }
    ensures marks { IfOk result (λ _. MarksAreWithin L.marks (eof_number terminals.now) slots.new.items) }
    ensures flows { let end = eof_number terminals.now in
        IfOk result (λ _. (s k : ℕ) → (has (set_of_number (all_marks L.marks (end + 2) slots.new.items) s) k ≡ true)
        ↔ Flows L.firsts end (edges_seen firsts.now edges.now) (all_marks L.marks (end + 2) slots.old.items) s k) }
{
    let mut changed = true;
    let mut forward = true;
    while changed {
        changed = sweep(alloc, terminals, firsts, edges, forward, slots)?;
        forward = !forward;
    }
    Ok(())
}
