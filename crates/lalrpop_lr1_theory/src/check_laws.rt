//! Laws of checked states as tests along items, edges and names, on which the test of states rests.
//!
//! The module has no code but laws. `NameClosures` in `specs/` has the least sets of names: those that a closure brings, those that
//! a start reaches, those that have a tree. `CoverTests` says by tests along items and edges when states cover the items,
//! `PropagatedNexts` what is carried to a name in a state, and `CheckLaws` what the laws say.

ghost use Rattle.lalrpop_lr1_theory.specs.CheckLaws.{CarriedArePropagated, CoversAreTested, NoneBarrenIsProductive};

/// The law that states cover the items exactly where they pass the tests along items and edges.
pub fn covers_are_tested()
    ensures { CoversAreTested }
{}

/// The law that states reduce before all that is carried exactly where they reduce before all that is propagated to names.
pub fn carried_are_propagated()
    ensures { CarriedArePropagated }
{}

/// The law that nothing which the start reaches is barren exactly where all names that it reaches are productive.
pub fn none_barren_is_productive()
    ensures { NoneBarrenIsProductive }
{}
