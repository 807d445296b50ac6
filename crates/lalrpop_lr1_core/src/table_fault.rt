//! Why there is no table: conflicts, or no memory.

use crate::conflict::Conflict;
use crate::lookahead::Lookahead;
use crate::state::State;
use lalrpop_sets::{Nil, TokenSet};
use std::alloc::{AllocError, AllocFailed};

/// States with conflicts.
#[derive(Drop)]
#[derive_where(Debug; L: Lookahead)]
pub struct TableConstructionError<'g, L> {
    /// All states.
    pub states: Vec<State<'g, L>>,
    /// All their conflicts.
    pub conflicts: Vec<Conflict<'g, L>>,
}

/// Conflicts of states without lookaheads.
pub type Lr0TableConstructionError<'g> = TableConstructionError<'g, Nil>;

/// Conflicts of states with lookaheads.
pub type Lr1TableConstructionError<'g> = TableConstructionError<'g, TokenSet>;

/// Why no states are answered.
#[derive(Drop)]
#[derive_where(Debug; L: Lookahead)]
pub enum TableFault<'g, L> {
    /// The states have conflicts.
    Conflicts(TableConstructionError<'g, L>),
    /// Memory ran out.
    Memory,
}

/// States without conflicts, or why there are none.
pub type LrResult<'g, L> = Result<Vec<State<'g, L>>, TableFault<'g, L>>;

/// States with lookaheads and without conflicts, or why there are none.
pub type Lr1Result<'g> = LrResult<'g, TokenSet>;

impl<'g, L> From<AllocError> for TableFault<'g, L> {
    ghost use Rattle.std.specs.Prelude.{◌≡◌};
    ghost use Rattle.lalrpop_lr1_core.specs.declared.table_fault.TableFault.TheVariants.{Memory};

    ghost from_gives = { λ _ fault. fault ≡ Memory };

    fn from(_: AllocError) -> TableFault<'g, L> {
        TableFault::Memory
    }
}

impl<'g, L, T: Drop> From<AllocFailed<T>> for TableFault<'g, L> {
    ghost use Rattle.std.specs.Prelude.{◌≡◌};
    ghost use Rattle.lalrpop_lr1_core.specs.declared.table_fault.TableFault.TheVariants.{Memory};

    ghost from_gives = { λ _ fault. fault ≡ Memory };

    fn from(_: AllocFailed<T>) -> TableFault<'g, L> {
        TableFault::Memory
    }
}
