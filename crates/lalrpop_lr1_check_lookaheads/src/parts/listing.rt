//! What states have, listed once, and the tests that go along it.

ghost use Rattle.std.specs.Prelude.{◌≡◌, ◌↔◌, IfOk, IsTrue, List, ℕ, map};
ghost use Rattle.lalrpop_lr1_theory.specs.States.{HasEdge, HasItem, LookaheadSet};
ghost use Rattle.lalrpop_lr1_core.specs.Views.{lr_state_view, production_view};
ghost use Rattle.lalrpop_lr1_check_lookaheads.specs.Listings.{IsStateListing};
ghost use Rattle.lalrpop_lr1_check_lookaheads.specs.Moves.{FollowsEdges};
ghost use Rattle.lalrpop_lr1_check_lookaheads.specs.Reductions.{FinishedAsSeen};

use crate::parts::edges::{StateEdge, edges_of};
use crate::parts::listed::{ListedItem, has_item, kernels_of, listed_items};
use crate::parts::moving::{edges_come_back, states_move_on};
use crate::parts::reducing::states_reduce_finished;
use indexmap::IndexSet;
use lalrpop_grammar_repr::Production;
use lalrpop_lr1_core::Lr1State;
use std::alloc::{AllocError, Global};

/// The items and the edges of states, listed to be asked for.
#[derive(Drop)]
pub struct StateListing<'s, 'g> {
    pub(crate) states: &'s [Lr1State<'g>],
    pub(crate) listed: IndexSet<ListedItem<'g>>,
    pub(crate) kernels: Vec<IndexSet<ListedItem<'g>>>,
    pub(crate) edges: Vec<StateEdge<'s>>,
}

impl<'s, 'g> StateListing<'s, 'g> {
    /// The items and the edges of the states, wherever they come from.
    pub fn new(
        alloc: Global,
        states: &'s [Lr1State<'g>],
    ) -> Result<StateListing<'s, 'g>, AllocError>
        ensures states { IfOk result (λ listing. listing.states.now ≡ states.now) }
        ensures listing { IfOk result IsStateListing }
    {
        let listed = listed_items(alloc, states)?;
        let kernels = kernels_of(alloc, states)?;
        let edges = edges_of(alloc, states)?;
        Ok(StateListing {
            states,
            listed,
            kernels,
            edges,
        })
    }

    /// Whether the state has the item, whatever may follow it.
    pub fn has_item(&self, state: usize, production: &'g Production, dot: usize) -> bool
        requires { IsStateListing self.now }
        ensures { (look : List ℕ → LookaheadSet) → let seen = map (lr_state_view look) self.now.states.now in
            IsTrue result ↔ HasItem seen state (production_view production.now) dot }
    {
        has_item(&self.listed, state, production, dot)
    }

    /// Whether items follow edges: each item with a symbol behind its dot moves over it along an edge, each edge leads to items
    /// that have moved, and each of these comes back along it.
    pub fn follows_edges(&self) -> bool
        requires { IsStateListing self.now }
        ensures { (look : List ℕ → LookaheadSet) → let seen = map (lr_state_view look) self.now.states.now in
            IsTrue result ↔ FollowsEdges (HasItem seen) (HasEdge seen) }
    {
        if states_move_on(&self.listed, self.states) {
            edges_come_back(&self.listed, self.kernels.as_slice(), self.edges.as_slice())
        } else {
            false
        }
    }

    /// Whether each reduction is by a finished item of its state.
    pub fn reduces_finished(&self) -> bool
        requires { IsStateListing self.now }
        ensures { (look : List ℕ → LookaheadSet) → IsTrue result ↔ FinishedAsSeen (map (lr_state_view look) self.now.states.now) }
    {
        states_reduce_finished(&self.listed, self.states)
    }
}
