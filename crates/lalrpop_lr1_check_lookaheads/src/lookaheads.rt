//! Lookaheads of nonterminals in states, carried along edges to finished items: read off for each reduction, and whether the states
//! reduce before all of them, a part of the test of states.
//!
//! A slot is a nonterminal in a state. What can come first behind a nonterminal is propagated to its slot, and from slot to slot goes
//! what stands before a rest that derives nothing. A production carries what its name's slot has to its end, in the state to which it
//! leads. In `specs/`, `LookaheadSlots` says what stands in slots, `Brought` what items bring to them, `PropagationEdges` along which
//! edges it is propagated, `Ends` what comes to ends, and `CarriedSets` what is read off.

mod carried;
mod ending;
mod ends;
mod propagated;
mod propagation;
mod reducing;
mod rests;
mod seeds;
mod slots;
mod walking;

pub use carried::{carried_lookaheads, reduces_before_lookaheads};
