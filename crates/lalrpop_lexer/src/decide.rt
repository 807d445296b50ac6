//! Which pattern each state accepts, or the first state in which two tie.

ghost use Rattle.std.specs.Prelude.{◌≡◌, ℕ, ◌<◌, length, map, IfErr, IfOk};
ghost use Rattle.lalrpop_lexer.specs.StateViews.{accepted_in};
ghost use Rattle.lalrpop_lexer.specs.Outcome.{numbers, IsAccepted};
ghost use Rattle.lalrpop_lexer.specs.Ties.{AcceptsPattern, TellsTie};

use crate::error::DfaConstructionError;
use crate::kind::NfaIndex;
use crate::outcome::{Outcome, Precedence};
use crate::outcome_of::outcome_of;
use crate::slices::Slices;
use crate::state::State;
use std::alloc::Global;

/// The states, each with the pattern that it accepts, where `sets` has the set of each state.
///
/// Errors: memory ran out, or some state has a tie; then the first such state's.
pub(crate) fn decide(
    alloc: Global,
    sets: &Slices<usize>,
    precedences: &[Precedence],
) -> Result<Vec<State>, DfaConstructionError>
    ensures count { IfOk result (λ states. length states.items ≡ length sets.now) }
    ensures accepted { IfOk result (λ states. (s : ℕ) → s < length sets.now → IsAccepted (AcceptsPattern sets.now s) (numbers precedences.now) (length (numbers precedences.now)) (accepted_in states.items s)) }
    ensures refused { IfErr result (TellsTie sets.now (numbers precedences.now)) }
{
    let mut states = Vec::with_capacity(alloc, sets.len())?;
    for i in 0..sets.len() {
        let accepts = match outcome_of(alloc, sets.get(i), precedences)? {
            Outcome::Nothing => None,
            Outcome::Wins(pattern) => Some(NfaIndex(pattern)),
            Outcome::Ties(match0, match1) => {
                return Err(DfaConstructionError::Ambiguity {
                    match0: NfaIndex(match0),
                    match1: NfaIndex(match1),
                });
            }
        };
        states.push(State { accepts })?;
    }
    Ok(states)
}
