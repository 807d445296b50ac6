//! The longest match at the front of a text.

ghost use Rattle.std.specs.Prelude.{◌≡◌, ◌<◌, [], None, length, slice_get, slice_index_or, IfSome, MatchOption};
ghost use Rattle.std.specs.Prelude.{option_and_then, option_map};
ghost use Rattle.std.specs.Str.{chars};
ghost use Rattle.lalrpop_lexer.specs.Simulation.{target_of, next_state_view, answer_of};
ghost use Rattle.lalrpop_lexer.specs.Answer.{IsAnswerFront};

use crate::automaton::Dfa;
use crate::kind::NfaIndex;
use crate::row::target_in;
use crate::walk::walk_along;

impl Dfa {
    /// The number of the state that the edge of one of the states leads to which reads the character, if there is one.
    fn target(&self, state: usize, character: u32) -> Option<usize>
        requires { state < length self.now }
        ensures { result ≡ target_of (slice_index_or self.now state (None, [])).1 character }
    {
        let row = self.rows.get(state);
        match row.get(character as usize) {
            Some(target) => *target,
            None => {
                let edges = self.edges.get(state);
                target_in(edges, character)
            }
        }
    }

    /// The pattern that one of the states accepts, if any.
    pub(crate) fn pattern_at(&self, state: usize) -> Option<NfaIndex>
        requires { state < length self.now }
        ensures { option_map (λ i. i.0) result ≡ (slice_index_or self.now state (None, [])).0 }
    {
        self.states[state].accepts
    }

    /// The state that the character leads to from one of the states, if there is one.
    pub(crate) fn next_state(&self, state: usize, character: u32) -> Option<usize>
        requires { state < length self.now }
        ensures leads { option_and_then (slice_get self.now) result ≡ next_state_view self.now (slice_index_or self.now state (None, [])) character }
        ensures inside { IfSome result (λ n. n < length self.now) }
    {
        let number = self.target(state, character)?;
        let count = self.state_count();
        if number >= count {
            return None;
        }
        Some(number)
    }
}

/// The longest nonempty part at the text's front that some pattern of the automaton matches, with the pattern that it
/// belongs to.
pub fn interpret<'t>(dfa: &Dfa, text: &'t str) -> Option<(NfaIndex, &'t str)>
    ensures { MatchOption result (answer_of dfa.now (chars text.now) ≡ None) (λ found. IsAnswerFront dfa.now text.now found.0.0 found.1.now) }
{
    if dfa.state_count() == 0 {
        return None;
    }
    let (walk, _) = walk_along(dfa, text, None);
    walk.answer(text)
}
