//! An automaton along a text, up to the text's end or to where it is known that no match comes any more.

ghost use Rattle.std.specs.Prelude.{◌≡◌, ◌<◌, ℕ, List, ◌++◌, None, length, IfSome, MatchOption};
ghost use Rattle.std.specs.Str.{chars};
ghost use Rattle.lalrpop_lexer.specs.Simulation.{StateView, answer_of};
ghost use Rattle.lalrpop_lexer.specs.Answer.{IsAnswerFront};
ghost use Rattle.lalrpop_lexer.specs.Walks.{AreDeadEnds, IsTextWalk};

use crate::automaton::Dfa;
use crate::dead_ends::{DeadEnds, is_dead_end};
use crate::kind::NfaIndex;

/// Where an automaton was last in a state that accepts, along a text.
#[derive(Clone, Copy)]
pub(crate) struct Walk<'t> {
    /// The pattern of the longest match at the text's front, if there is one.
    pub(crate) pattern: Option<NfaIndex>,
    /// The state that the match leads to; without a match the first state.
    pub(crate) state: usize,
    /// The text behind the match.
    pub(crate) rest: &'t str,
}

/// The text without what is left of it.
fn before<'t>(text: &'t str, rest: &str) -> &'t str
    requires { (front : List ℕ) × (text.now ≡ front ++ rest.now) }
    ensures { text.now ≡ result.now ++ rest.now }
{
    &text[..text.len() - rest.len()]
}

impl<'t> Walk<'t> {
    /// The longest nonempty match at the front of the text that was walked along, and the pattern that it belongs to.
    pub(crate) fn answer(self, text: &'t str) -> Option<(NfaIndex, &'t str)>
        requires { (front : List ℕ) × (text.now ≡ front ++ self.rest.now) }
        ensures { (nodes : List StateView) → IsTextWalk nodes text.now self.entry
            → MatchOption result (answer_of nodes (chars text.now) ≡ None) (λ found. IsAnswerFront nodes text.now found.0.0 found.1.now) }
    {
        let pattern = self.pattern?;
        Some((pattern, before(text, self.rest)))
    }
}

/// Walks along the text for as long as a longer match may come, and answers how many bytes are left then, too.
pub(crate) fn walk_along<'t>(
    dfa: &Dfa,
    text: &'t str,
    known: Option<&DeadEnds>,
) -> (Walk<'t>, usize)
    requires some { 0 < length dfa.now }
    requires known { IfSome known (λ ends. AreDeadEnds dfa.now text.now ends.now) }
    ensures { IsTextWalk dfa.now text.now result.0 }
{
    let mut state = 0;
    let mut left = text.chars();
    let mut walk = Walk {
        pattern: None,
        state,
        rest: text,
    };
    while let Some(c) = left.next() {
        let Some(next) = dfa.next_state(state, c as u32) else {
            return (walk, left.as_str().len());
        };
        state = next;
        let pattern = dfa.pattern_at(state);
        let rest = left.as_str();
        if pattern.is_some() {
            walk = Walk {
                pattern,
                state,
                rest,
            };
        } else if is_dead_end(known, state, rest.len()) {
            return (walk, rest.len());
        }
    }
    (walk, 0)
}
