//! Laws on expanded trees and their lists.

ghost use Rattle.lalrpop_lr1_interpret.specs.MoveOrderLaws.{ListsAreTrees, MovesAreEntries};

/// The law that an expanded tree's list is that of its moves, in their order.
pub fn moves_are_entries()
    ensures { MovesAreEntries }
{}

/// The law that a list of entries in move order is the list of exactly one tree, and that each tree's list is in move order.
pub fn lists_are_trees()
    ensures { ListsAreTrees }
{}
