//! The collapse of canonical LR(1) states to LALR(1) states: those with one core, the same items without lookaheads, are merged.
//!
//! `StateCores` in `specs/` says what the core of a state is, `JoinedItems` and `JoinedStates` how states are joined place by place,
//! and `CollapseAnswers` what the collapse answers. What these states are, the laws of `lalrpop_lr1_theory::collapse_laws` say.

mod collapse;
mod cores;
mod edges;
mod joined_states;
mod joining;

pub use collapse::collapse_to_lalr_states;
pub use edges::renumber_edges;
