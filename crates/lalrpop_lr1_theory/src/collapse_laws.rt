//! Laws of the collapse: canonical states merged by their cores, that is by their items without lookaheads.
//!
//! The module has no code but laws. `CollapsedStates` in `specs/` says which states are put together and what becomes of them,
//! `SameStates` when states are the same up to their numbers, and `CollapseLaws` what the laws say.

ghost use Rattle.lalrpop_lr1_theory.specs.CollapseLaws.{CollapsedAreCarried, CollapsedAreChecked, CollapsedAreLr0, JoinedAreCollapsed};

/// The law that canonical states put together by their items are, up to their numbers, the states without lookaheads.
pub fn collapsed_are_lr0()
    ensures { CollapsedAreLr0 }
{}

/// The law that each item of canonical states put together has exactly the lookaheads that are carried to it.
pub fn collapsed_are_carried()
    ensures { CollapsedAreCarried }
{}

/// The law that canonical states put together are checked where they have no conflict, for a start alone that reaches no barren
/// nonterminal.
pub fn collapsed_are_checked()
    ensures { CollapsedAreChecked }
{}

/// The law that canonical states joined by their lists of items, place by place, are put together by their cores.
pub fn joined_are_collapsed()
    ensures { JoinedAreCollapsed }
{}
