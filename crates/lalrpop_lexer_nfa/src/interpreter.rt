//! The longest match at a text's front, found by running an automaton over the text.

ghost use Rattle.std.specs.Prelude.{◌≡◌, ℕ, List, ◌++◌, IfOk, MatchOption, IsTrue, ◌↔◌};
ghost use Rattle.lalrpop_lexer_nfa.specs.Paths.{Accepts};
ghost use Rattle.lalrpop_lexer_nfa.specs.Fronts.{HasNoFront, IsLongestFront};

use crate::automaton::{ACCEPT, Nfa, START};
use crate::state_set::NfaStateSet;
use std::alloc::{AllocError, Global};
use std::mem;

/// The text up to what is left of it.
fn before<'t>(text: &'t str, rest: &str) -> &'t str
    requires { (front : List ℕ) × (text.now ≡ front ++ rest.now) }
    ensures { text.now ≡ result.now ++ rest.now }
{
    &text[..text.len() - rest.len()]
}

/// The longest part at the text's front that the automaton accepts, the empty one included.
///
/// Errors: memory ran out.
pub fn interpret<'t>(alloc: Global, nfa: &Nfa, text: &'t str) -> Result<Option<&'t str>, AllocError>
    ensures { IfOk result (λ found. MatchOption found (HasNoFront nfa.now text.now) (λ front. IsLongestFront nfa.now text.now front.now)) }
{
    let mut current = NfaStateSet::new(alloc, nfa.states.len())?;
    let mut next = NfaStateSet::new(alloc, nfa.states.len())?;
    current.insert(START.0)?;
    nfa.close(&mut current)?;
    let mut found = None;
    if current.contains(ACCEPT.0) {
        found = Some(before(text, text));
    }
    let mut left = text.chars();
    while let Some(c) = left.next() {
        nfa.step(&current, c as u32, &mut next)?;
        mem::swap(&mut current, &mut next);
        if current.contains(ACCEPT.0) {
            found = Some(before(text, left.as_str()));
        }
    }
    Ok(found)
}
