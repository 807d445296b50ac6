//! The automaton of several patterns, or why there is none.

ghost use Rattle.std.specs.Prelude.{◌≡◌, ℕ, length, map, IfErr, IfOk, MatchOption};
ghost use Rattle.lalrpop_lexer_pattern.specs.Meaning.{meaning};
ghost use Rattle.lalrpop_lexer_pattern.specs.Wins.{HasNoTie};
ghost use Rattle.lalrpop_lexer.specs.Build.{AreSupported, IsFirstUnsupported, IsDfaFault};
ghost use Rattle.lalrpop_lexer.specs.Simulation.{Decides};
ghost use Rattle.lalrpop_lexer.specs.Outcome.{numbers};

use crate::automaton::Dfa;
use crate::decide::decide;
use crate::error::DfaConstructionError;
use crate::kind::NfaIndex;
use crate::outcome::Precedence;
use crate::whole::{Whole, all_states};
use lalrpop_lexer_nfa::{Nfa, NfaConstructionError};
use lalrpop_lexer_pattern::{Refusal, Regex};
use std::alloc::Global;

/// The first of the patterns that no automaton can be made for, and why, if there is such a pattern.
fn first_refused(patterns: &[Regex]) -> Option<(usize, Refusal)>
    ensures { MatchOption result (AreSupported (map meaning patterns.now)) (λ found. IsFirstUnsupported (map meaning patterns.now) found.0 found.1) }
{
    for i in 0..patterns.len() {
        if let Some(refusal) = patterns[i].refusal() {
            return Some((i, refusal));
        }
    }
    None
}

/// The automaton of several patterns, each with its precedence: [`interpret`](crate::dfa::interpret) answers by it the
/// longest nonempty match at the front of a text, and the pattern with the greatest precedence among those that match it.
///
/// Errors: memory ran out; or one of the patterns has something that no automaton is made for, then the first such
/// pattern with the first such thing in it; or, where there is none, two patterns tie at the greatest precedence on some
/// word, the empty one included, then the two last of those that tie on the shortest, then least, such word.
pub fn build_dfa(
    alloc: Global,
    patterns: &[Regex],
    precedences: &[Precedence],
) -> Result<Dfa, DfaConstructionError>
    requires { length patterns.now ≡ length precedences.now }
    ensures decides { IfOk result (λ dfa. Decides dfa (map meaning patterns.now) (numbers precedences.now)) }
    ensures accepted { IfOk result (λ _. AreSupported (map meaning patterns.now)) }
    ensures unambiguous { IfOk result (λ _. HasNoTie (map meaning patterns.now) (numbers precedences.now)) }
    ensures refused { IfErr result (IsDfaFault (map meaning patterns.now) (numbers precedences.now)) }
{
    if let Some((index, refusal)) = first_refused(patterns) {
        return Err(DfaConstructionError::NfaConstructionError {
            index: NfaIndex(index),
            error: NfaConstructionError::from(refusal),
        });
    }
    let nfa = Nfa::from_all(alloc, patterns)?;
    let Whole { edges, rows, sets } = all_states(alloc, &nfa)?;
    let states = decide(alloc, &sets, precedences)?;
    Ok(Dfa {
        states,
        edges,
        rows,
    })
}
