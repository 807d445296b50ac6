//! The token that is next in a walk over numbers.

ghost use Rattle.std.specs.Prelude.{◌≡◌, ◌∷◌, [], MatchOption};
ghost use Rattle.lalrpop_sets.specs.RangeWalks.{numbers_to_come};
ghost use Rattle.lalrpop_sets.specs.TokensLeft.{known_tokens, token_of_number, token_seen};

use crate::range_walk::RangeWalk;
use crate::token::TokenRef;
use lalrpop_grammar_repr::TerminalSet;

/// The token with the next number that is one of the terminals', the end's or the token of errors'.
pub(crate) fn next_token<'s>(
    walk: &mut RangeWalk<'_>,
    terminals: &'s TerminalSet,
) -> Option<TokenRef<'s>>
    ensures { let before = known_tokens terminals.now (numbers_to_come walk.old) in
        let after = known_tokens terminals.now (numbers_to_come walk.new) in
        MatchOption result ((before ≡ []) × (after ≡ [])) (λ token. before ≡ token_seen token ∷ after) }
{
    let end = terminals.all.as_slice().len() + 2;
    while let Some(number) = walk.next_number() {
        if number < end {
            return Some(token_by_number(terminals, number));
        }
    }
    None
}

/// The token with the number.
fn token_by_number(terminals: &TerminalSet, k: usize) -> TokenRef<'_>
    ensures { token_seen result ≡ token_of_number terminals.now k }
{
    match terminals.all.as_slice().get(k) {
        Some(terminal) => TokenRef::Terminal(terminal),
        None if k == terminals.all.len() => TokenRef::Eof,
        None => TokenRef::Error,
    }
}
