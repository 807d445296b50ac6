//! The match block of a grammar.

ghost use Rattle.std.specs.Prelude.{◌≡◌, map, option_map};
ghost use Rattle.lalrpop_grammar.specs.Views.{match_item_view, item_view};
ghost use Rattle.lalrpop_norm_token_check.specs.Blocks.{block_groups};

use lalrpop_grammar::{GrammarItem, MatchToken};

/// The first match block of the items.
pub(crate) fn first_block(items: &[GrammarItem]) -> Option<&MatchToken>
    ensures { option_map (λ b. map (λ c. map match_item_view c.items) b.now.contents) result
        ≡ block_groups (map item_view items.now) }
{
    let mut rest = items;
    while let Some((item, others)) = rest.split_first() {
        rest = others;
        if let GrammarItem::MatchToken(block) = item {
            return Some(block);
        }
    }
    None
}
