//! Why an interpreter gives no tree.

use lalrpop_lr1_core::Lr1State;
use lalrpop_sets::Token;
use std::alloc::{AllocError, AllocFailed};

/// Where tokens go wrong.
#[derive(Drop)]
pub struct InterpretError<'g> {
    /// The state that does nothing before the token.
    pub state: &'g Lr1State<'g>,
    /// The token: a terminal, or the end.
    pub token: Token,
}

/// Why an interpreter gives no tree.
#[derive(Drop)]
pub enum InterpretFault<'g> {
    /// A token is wrong, or the end is.
    Stuck(InterpretError<'g>),
    /// More than 18446744073709551615 moves would be made.
    Limit,
    /// Memory ran out.
    Memory,
}

impl<'g> From<AllocError> for InterpretFault<'g> {
    ghost use Rattle.std.specs.Prelude.{◌≡◌};
    ghost use Rattle.lalrpop_lr1_interpret.specs.declared.interpret_fault.InterpretFault.TheVariants.{Memory};

    ghost from_gives = { λ _ fault. fault ≡ Memory };

    fn from(_: AllocError) -> InterpretFault<'g> {
        InterpretFault::Memory
    }
}

impl<'g, T: Drop> From<AllocFailed<T>> for InterpretFault<'g> {
    ghost use Rattle.std.specs.Prelude.{◌≡◌};
    ghost use Rattle.lalrpop_lr1_interpret.specs.declared.interpret_fault.InterpretFault.TheVariants.{Memory};

    ghost from_gives = { λ _ fault. fault ≡ Memory };

    fn from(_: AllocFailed<T>) -> InterpretFault<'g> {
        InterpretFault::Memory
    }
}
