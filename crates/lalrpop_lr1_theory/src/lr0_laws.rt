//! Laws of LR(0) states: the items that are valid on symbols, whatever may follow.
//!
//! The module has no code but laws. `ValidCores` in `specs/` says which items are valid on a list of symbols whatever may follow
//! them, and how many sets of them there are, and `Lr0Laws` what the laws say.

ghost use Rattle.lalrpop_lr1_theory.specs.Lr0Laws.{Lr0AreCounted, Lr0AreValid};

/// The law that states without lookaheads hold, on each list of symbols that leads to them, exactly the items that are valid there
/// before something.
pub fn lr0_are_valid()
    ensures { Lr0AreValid }
{}

/// The law that there are as many of them as nonempty sets of such items.
pub fn lr0_are_counted()
    ensures { Lr0AreCounted }
{}
