//! The choice among the patterns that match a state's words.

ghost use Rattle.std.specs.Prelude.{◌≡◌, ℕ, ◌+◌, ◌<◌, Contains, length, IfOk};
ghost use Rattle.std.specs.List.Sorted.{IsNonDecreasing};
ghost use Rattle.lalrpop_lexer.specs.Outcome.{numbers, outcome_with, IsOutcomeBelow, IsOutcome};

use crate::outcome::{Outcome, Precedence};
use lalrpop_lexer_nfa::FIRST_ACCEPT;
use std::alloc::{AllocError, Global};
use std::cmp::Ordering;

/// The numbers of the patterns whose accepting states are in the set, ascending.
fn patterns_in(alloc: Global, set: &[usize]) -> Result<Vec<usize>, AllocError>
    ensures only { IfOk result (λ patterns. (k : ℕ) → Contains patterns.items k → Contains set.now (3 + k)) }
    ensures all { IfOk result (λ patterns. (k : ℕ) → Contains set.now (3 + k) → Contains patterns.items k) }
    ensures ascending { IfOk result (λ patterns. IsNonDecreasing patterns.items) }
{
    let mut patterns = Vec::new(alloc);
    for i in 0..set.len() {
        if FIRST_ACCEPT <= set[i] {
            patterns.push(set[i] - FIRST_ACCEPT)?;
        }
    }
    patterns.sort_unstable();
    Ok(patterns)
}

/// What the outcome becomes when a later pattern matches as well.
fn join(outcome: Outcome, pattern: usize, precedences: &[Precedence]) -> Outcome
    requires pattern { pattern < length precedences.now }
    requires outcome { IsOutcomeBelow (length precedences.now) outcome }
    ensures { result ≡ outcome_with (numbers precedences.now) outcome pattern }
{
    let best = match outcome {
        Outcome::Nothing => return Outcome::Wins(pattern),
        Outcome::Wins(best) => best,
        Outcome::Ties(_, best) => best,
    };
    match precedences[pattern].0.cmp(&precedences[best].0) {
        Ordering::Less => outcome,
        Ordering::Equal => Outcome::Ties(best, pattern),
        Ordering::Greater => Outcome::Wins(pattern),
    }
}

/// Which of the patterns wins whose accepting states are in the set, or which tie.
pub(crate) fn outcome_of(
    alloc: Global,
    set: &[usize],
    precedences: &[Precedence],
) -> Result<Outcome, AllocError>
    ensures { IfOk result (λ outcome. IsOutcome (λ k. Contains set.now (3 + k)) (numbers precedences.now) (length (numbers precedences.now)) outcome) }
{
    let patterns = patterns_in(alloc, set)?;
    let mut outcome = Outcome::Nothing;
    let mut next = 0;
    for i in 0..patterns.len() {
        let pattern = patterns[i];
        if next <= pattern && pattern < precedences.len() {
            outcome = join(outcome, pattern, precedences);
            next = pattern + 1;
        }
    }
    Ok(outcome)
}
