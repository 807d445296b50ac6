//! Laws of states under other numbers: checked states stay checked in another order.
//!
//! The module has no code but a law. `RenumberedStates` in `specs/` says when states are others by other numbers, `GotoOrders` in which
//! order those with gotos come first, and `OrderLaws` what the law says.

ghost use Rattle.lalrpop_lr1_theory.specs.OrderLaws.{RenumberedAreChecked};

/// The law that checked states stay checked by other numbers, where the first keeps its number.
pub fn renumbered_are_checked()
    ensures { RenumberedAreChecked }
{}
