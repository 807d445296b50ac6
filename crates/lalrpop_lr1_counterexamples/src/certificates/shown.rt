//! What is shown: conflicts of a grammar's states.

ghost use Rattle.std.specs.Prelude.{◌≡◌, ◌<◌, ℕ, IfOk, List, Some, length, slice_get};
ghost use Rattle.lalrpop_sets.specs.TokensLeft.{token_seen, tokens_of};
ghost use Rattle.lalrpop_lr1_counterexamples.specs.ShownStates.{AreShownConflicts, IsConflictAt, IsLeastToken};
ghost use Rattle.lalrpop_lr1_counterexamples.specs.Slots.{AreLeastTokens};

use lalrpop_grammar_repr::Grammar;
use lalrpop_grammar_symbols::NonterminalString;
use lalrpop_lr1_core::{Conflict, State};
use lalrpop_sets::{TokenRef, TokenSet};
use std::alloc::{AllocError, Global};

/// Conflicts of a grammar's canonical states from a start.
#[derive(Drop)]
pub(crate) struct ShownConflicts<'c, 'g> {
    /// The grammar.
    pub(crate) grammar: &'g Grammar,
    /// The start.
    pub(crate) start: &'c NonterminalString,
    /// The canonical states.
    pub(crate) states: &'c [State<'g, TokenSet>],
    /// The conflicts.
    pub(crate) conflicts: &'c [Conflict<'g, TokenSet>],
}

impl<'c, 'g> ShownConflicts<'c, 'g> {
    /// The conflict with the number.
    pub(crate) fn conflict(&self, number: usize) -> &'c Conflict<'g, TokenSet>
        requires { number < length self.now.conflicts.now }
        ensures { IsConflictAt self.now number result.now }
    {
        &self.conflicts[number]
    }

    /// The state with the number.
    pub(crate) fn state(&self, number: usize) -> &'c State<'g, TokenSet>
        requires { number < length self.now.states.now }
        ensures { slice_get self.now.states.now number ≡ Some result.now }
    {
        &self.states[number]
    }

    /// The least token of the conflict's lookahead: terminals in the grammar's order, then the end.
    fn least_token(&self, number: usize) -> TokenRef<'_>
        requires shown { AreShownConflicts self.now }
        requires number { number < length self.now.conflicts.now }
        ensures { IsLeastToken self.now number result }
    {
        let conflict = self.conflict(number);
        match conflict.lookahead.iter(&self.grammar.terminals).next() {
            Some(token) => token,
            None => unreachable!(),
        }
    }

    /// For each conflict the least token of its lookahead.
    pub(crate) fn least_tokens(&self, alloc: Global) -> Result<Vec<TokenRef<'_>>, AllocError>
        requires { AreShownConflicts self.now }
        ensures { IfOk result (λ tokens. AreLeastTokens self.now tokens.items) }
    {
        let mut tokens = Vec::with_capacity(alloc, self.conflicts.len())?;
        for number in 0..self.conflicts.len() {
            tokens.push(self.least_token(number))?;
        }
        Ok(tokens)
    }
}
