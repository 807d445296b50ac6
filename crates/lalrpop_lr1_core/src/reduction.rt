//! By which production a state reduces before a token.

ghost use Rattle.std.specs.Prelude.{◌≡◌, find, option_map};
ghost use Rattle.lalrpop_sets.specs.Tokens.{has_number, number_of};

use crate::lookahead::LookaheadInterpret;
use crate::state::State;
use lalrpop_grammar_repr::{Production, TerminalSet};
use lalrpop_sets::{Nil, Token, TokenSet};

/// The first of the reductions that has the token.
fn first_reduction<'g>(
    reductions: &[(TokenSet, &'g Production)],
    token: &Token,
    terminals: &TerminalSet,
) -> Option<&'g Production>
    ensures { result ≡ option_map (λ r. r.1)
        (find (λ r. has_number r.0 (number_of terminals.now token.now)) reductions.now) }
{
    for reduction in reductions {
        if reduction.0.contains(token, terminals) {
            return Some(reduction.1);
        }
    }
    None
}

impl LookaheadInterpret for Nil {
    ghost use Rattle.std.specs.Prelude.{slice_get};

    ghost reduction_before = { λ _ state _. option_map (λ r. r.1) (slice_get state.reductions 0) };

    fn reduction<'g>(state: &State<'g, Nil>, _: &Token, _: &TerminalSet) -> Option<&'g Production> {
        match state.reductions.as_slice().first() {
            Some(reduction) => Some(reduction.1),
            None => None,
        }
    }
}

impl LookaheadInterpret for TokenSet {
    ghost reduction_before = { λ ts state token. option_map (λ r. r.1)
        (find (λ r. has_number r.0 (number_of ts token)) state.reductions) };

    fn reduction<'g>(
        state: &State<'g, TokenSet>,
        token: &Token,
        terminals: &TerminalSet,
    ) -> Option<&'g Production> {
        first_reduction(state.reductions.as_slice(), token, terminals)
    }
}
