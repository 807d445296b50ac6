//! Conflicts of states with lookaheads: each shift with each reduction before its terminal, and each two reductions that share
//! a token.

ghost use Rattle.std.specs.Prelude.{◌≡◌, ◌++◌, OnOk, flat_map};
ghost use Rattle.lalrpop_grammar_repr.specs.Maps.{at_terminal};
ghost use Rattle.lalrpop_sets.specs.declared.token.Token.TheVariants as tokens;
ghost use Rattle.lalrpop_lr1_core.specs.Conflicts.{
  pair_conflict,
  pairs_conflicts,
  shift_conflict,
  shift_conflicts,
};

use crate::conflict::{Action, Conflict};
use crate::lookahead::Lookahead;
use crate::state::State;
use crate::state_index::StateIndex;
use lalrpop_grammar_repr::{Map, Production, TerminalSet};
use lalrpop_grammar_symbols::TerminalString;
use lalrpop_sets::{Token, TokenSet};
use std::alloc::{AllocError, Global};
use std::fmt::{self, Debug, Formatter, Write};

impl Lookahead for TokenSet {
    ghost use Rattle.std.specs.Prelude.{Some, codes};
    ghost use Rattle.std.specs.Fmt.{◌++?◌};
    ghost use Rattle.lalrpop_lr1_core.specs.Conflicts.{token_conflicts};
    ghost use Rattle.lalrpop_lr1_core.specs.Views.{token_lookahead};

    ghost look = { token_lookahead };

    ghost suffix = { λ set. Some (codes " ") ++? ⟦<TokenSet as Debug>⟧.debug_output set };

    ghost conflicts_in = { token_conflicts };

    fn fmt_as_item_suffix<W: Write>(&self, f: &mut Formatter<W>) -> fmt::Result {
        write!(f, " {self:?}")
    }

    fn conflicts<'g>(
        alloc: Global,
        terminals: &TerminalSet,
        state: &State<'g, TokenSet>,
    ) -> Result<Vec<Conflict<'g, TokenSet>>, AllocError> {
        let mut conflicts = Vec::new(alloc);
        add_shifts(alloc, terminals, state, &mut conflicts)?;
        add_pairs(
            alloc,
            state.index,
            state.reductions.as_slice(),
            &mut conflicts,
        )?;
        Ok(conflicts)
    }

    fn try_clone(&self) -> Result<TokenSet, AllocError> {
        TokenSet::try_clone(self)
    }
}

/// Adds the conflicts of the shifts.
fn add_shifts<'g>(
    alloc: Global,
    terminals: &TerminalSet,
    state: &State<'g, TokenSet>,
    conflicts: &mut Vec<Conflict<'g, TokenSet>>,
) -> Result<(), AllocError>
    ensures { OnOk result (conflicts.new.items ≡ conflicts.old.items
        ++ flat_map (shift_conflicts terminals.now state.now.index state.now.reductions) state.now.shifts) }
{
    for (terminal, target) in state.shifts.iter() {
        let shift = Shift {
            alloc,
            terminals,
            state: state.index,
            terminal,
            target: *target,
        };
        shift.add_conflicts(state.reductions.as_slice(), conflicts)?;
    }
    Ok(())
}

/// A shift of a state.
#[derive(Clone, Copy)]
struct Shift<'s> {
    alloc: Global,
    terminals: &'s TerminalSet,
    state: StateIndex,
    terminal: &'s TerminalString,
    target: StateIndex,
}

impl<'s> Shift<'s> {
    /// Adds the conflicts of the shift with the reductions.
    fn add_conflicts<'g>(
        &self,
        reductions: &[(TokenSet, &'g Production)],
        conflicts: &mut Vec<Conflict<'g, TokenSet>>,
    ) -> Result<(), AllocError>
        ensures { OnOk result (conflicts.new.items ≡ conflicts.old.items
            ++ shift_conflicts self.now.terminals.now self.now.state reductions.now
            (self.now.terminal.now, self.now.target)) }
    {
        let token = Token::Terminal(self.terminal.try_clone()?);
        for reduction in reductions {
            self.add_conflict(&token, reduction, conflicts)?;
        }
        Ok(())
    }

    /// Adds the conflict of the shift with the reduction, where that is before the terminal.
    fn add_conflict<'g>(
        &self,
        token: &Token,
        reduction: &(TokenSet, &'g Production),
        conflicts: &mut Vec<Conflict<'g, TokenSet>>,
    ) -> Result<(), AllocError>
        requires { token.now ≡ tokens.Terminal self.now.terminal.now }
        ensures { OnOk result (conflicts.new.items ≡ conflicts.old.items
            ++ shift_conflict self.now.state (self.now.terminal.now, self.now.target)
            (at_terminal self.now.terminal.now self.now.terminals.now.bits) reduction.now) }
    {
        if !reduction.0.contains(token, self.terminals) {
            return Ok(());
        }
        let lookahead = TokenSet::from_token(self.alloc, token, self.terminals)?;
        conflicts.push(Conflict {
            state: self.state,
            lookahead,
            production: reduction.1,
            action: Action::Shift(self.terminal.try_clone()?, self.target),
        })?;
        Ok(())
    }
}

/// Adds the conflicts of each reduction with those behind it.
fn add_pairs<'g>(
    alloc: Global,
    state: StateIndex,
    reductions: &[(TokenSet, &'g Production)],
    conflicts: &mut Vec<Conflict<'g, TokenSet>>,
) -> Result<(), AllocError>
    ensures { OnOk result (conflicts.new.items
        ≡ conflicts.old.items ++ pairs_conflicts state reductions.now) }
{
    for (place, reduction) in reductions.iter().enumerate() {
        let (_, later) = reductions.split_at(place + 1);
        add_later(alloc, state, reduction, later, conflicts)?;
    }
    Ok(())
}

/// Adds the conflicts of the reduction with later ones.
fn add_later<'g>(
    alloc: Global,
    state: StateIndex,
    reduction: &(TokenSet, &'g Production),
    later: &[(TokenSet, &'g Production)],
    conflicts: &mut Vec<Conflict<'g, TokenSet>>,
) -> Result<(), AllocError>
    ensures { OnOk result (conflicts.new.items
        ≡ conflicts.old.items ++ flat_map (λ r. pair_conflict state (reduction.now, r)) later.now) }
{
    for other in later {
        add_pair(alloc, state, reduction, other, conflicts)?;
    }
    Ok(())
}

/// Adds the conflict of the two reductions, where they share a token.
fn add_pair<'g>(
    alloc: Global,
    state: StateIndex,
    reduction: &(TokenSet, &'g Production),
    later: &(TokenSet, &'g Production),
    conflicts: &mut Vec<Conflict<'g, TokenSet>>,
) -> Result<(), AllocError>
    ensures { OnOk result (conflicts.new.items
        ≡ conflicts.old.items ++ pair_conflict state (reduction.now, later.now)) }
{
    if reduction.0.is_disjoint(&later.0) {
        return Ok(());
    }
    let lookahead = reduction.0.intersection(alloc, &later.0)?;
    conflicts.push(Conflict {
        state,
        lookahead,
        production: reduction.1,
        action: Action::Reduce(later.1),
    })?;
    Ok(())
}
