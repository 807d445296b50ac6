//! Conflicts, and the actions that they tell.

ghost use Rattle.std.specs.Prelude.{◌≡◌, IfOk};

use crate::lookahead::Lookahead;
use crate::state_index::StateIndex;
use lalrpop_grammar_repr::Production;
use lalrpop_grammar_symbols::TerminalString;
use lalrpop_sets::{Nil, TokenSet};
use std::alloc::AllocError;

/// What a state may do.
#[derive(Debug, PartialEq, Eq, PartialOrd, Ord)]
pub enum Action<'g> {
    /// It shifts the terminal, and goes to the state.
    Shift(TerminalString, StateIndex),
    /// It reduces by the production.
    Reduce(&'g Production),
}

impl<'g> Drop for Action<'g> {
    /// Drops what it holds: where it is owned, that is one call.
    fn drop(self) {
        match self {
            Action::Shift(_part, _other) => {}
            Action::Reduce(_part) => {}
        }
    }
}

impl<'g> Action<'g> {
    /// A copy that equals it.
    pub fn try_clone(&self) -> Result<Action<'g>, AllocError>
        ensures { IfOk result (λ copy. copy ≡ self.now) }
    {
        Ok(match self {
            Action::Shift(terminal, to) => Action::Shift(terminal.try_clone()?, *to),
            Action::Reduce(production) => Action::Reduce(production),
        })
    }
}

/// A reduction of a state that another action forbids.
#[derive(Debug, PartialEq, Eq)]
pub struct Conflict<'g, L> {
    /// The state.
    pub state: StateIndex,
    /// What may follow where both may be done.
    pub lookahead: L,
    /// The production of the reduction.
    pub production: &'g Production,
    /// The other action.
    pub action: Action<'g>,
}

impl<'g, L: Drop> Drop for Conflict<'g, L> {
    /// Drops what it holds: where it is owned, that is one call.
    fn drop(self) {
        let Conflict {
            state: _state,
            lookahead: _lookahead,
            production: _production,
            action: _action,
        } = self;
    }
}

impl<'g, L: Lookahead> Conflict<'g, L> {
    /// A copy that equals it.
    pub fn try_clone(&self) -> Result<Conflict<'g, L>, AllocError>
        ensures { IfOk result (λ copy. copy ≡ self.now) }
    {
        Ok(Conflict {
            state: self.state,
            lookahead: self.lookahead.try_clone()?,
            production: self.production,
            action: self.action.try_clone()?,
        })
    }
}

/// A conflict of a state without lookaheads.
pub type Lr0Conflict<'g> = Conflict<'g, Nil>;

/// A conflict of a state with lookaheads.
pub type Lr1Conflict<'g> = Conflict<'g, TokenSet>;
