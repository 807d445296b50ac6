//! The tokens of a set, in order.

use crate::next_token::next_token;
use crate::range_walk::RangeWalk;
use crate::token::TokenRef;
use lalrpop_grammar_repr::TerminalSet;

/// The tokens of a set, in order: terminals as the grammar has them, then the end, then the token of errors.
/// `TokenSet::iter` makes it.
#[derive(Clone, Copy)]
pub struct TokenSetIter<'s> {
    // Over the numbers that are still to come.
    pub(crate) walk: RangeWalk<'s>,
    pub(crate) terminals: &'s TerminalSet,
}

impl<'s> Iterator for TokenSetIter<'s> {
    ghost use Rattle.std.specs.Iterator.{YieldsFirstBy, item_count};
    ghost use Rattle.lalrpop_sets.specs.TokensLeft.{token_seen};
    ghost use Rattle.lalrpop_sets.specs.IterLeft.{tokens_to_come};

    type Item = TokenRef<'s>;

    ghost next_gives = { YieldsFirstBy token_seen tokens_to_come };

    ghost remaining = { item_count tokens_to_come };

    fn next(&mut self) -> Option<TokenRef<'s>> {
        next_token(&mut self.walk, self.terminals)
    }
}
