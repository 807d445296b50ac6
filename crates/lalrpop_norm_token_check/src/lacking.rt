//! Literals in use that a match block lacks.

ghost use Rattle.std.specs.Prelude.{◌≡◌, IfOk, List, find, map, option_map};
ghost use Rattle.lalrpop_grammar_symbols.specs.Views.{literal_view};
ghost use Rattle.lalrpop_grammar.specs.Views.{item_view, match_item_view};
ghost use Rattle.lalrpop_grammar.specs.WrittenGrammar.{WrittenEntry};
ghost use Rattle.lalrpop_norm_token_check.specs.Blocks.{
  block_groups,
  entries_in_groups,
  first_lacking as first_lacked,
  is_lacking as lacks,
};
ghost use Rattle.lalrpop_norm_token_check.specs.Noting.{HasNoted};

use crate::block::first_block;
use crate::noting::{Noted, noted_in};
use lalrpop_grammar::{Grammar, MatchContents};
use lalrpop_grammar_symbols::TerminalLiteral;
use std::alloc::{AllocError, Global};

/// The first of the literals that the grammar's match block lacks; none where no block is written.
pub(crate) fn first_lacking<'g>(
    alloc: Global,
    grammar: &'g Grammar,
    used: &[&'g TerminalLiteral],
) -> Result<Option<&'g TerminalLiteral>, AllocError>
    ensures { IfOk result (λ found. option_map (λ l. literal_view l.now) found
        ≡ first_lacked (block_groups (map item_view grammar.now.items)) (map (λ l. literal_view l.now) used.now)) }
{
    match first_block(grammar.items.as_slice()) {
        None => Ok(None),
        Some(block) => lacking_in(alloc, block.contents.as_slice(), used),
    }
}

/// The first of the literals that the groups lack.
fn lacking_in<'g>(
    alloc: Global,
    groups: &'g [MatchContents],
    used: &[&'g TerminalLiteral],
) -> Result<Option<&'g TerminalLiteral>, AllocError>
    ensures { IfOk result (λ found. option_map (λ l. literal_view l.now) found
        ≡ find (lacks (entries_in_groups (map (λ c. map match_item_view c.items) groups.now)))
        (map (λ l. literal_view l.now) used.now)) }
{
    let noted = noted_in(alloc, groups)?;
    let found = lacking_among(&noted, used);
    Ok(found)
}

/// The first of the literals that the noted entries lack.
fn lacking_among<'g>(noted: &Noted<'g>, used: &[&'g TerminalLiteral]) -> Option<&'g TerminalLiteral>
    ensures { (entries : List WrittenEntry) → HasNoted noted.now entries → option_map (λ l. literal_view l.now) result
        ≡ find (lacks entries) (map (λ l. literal_view l.now) used.now) }
{
    for literal in used {
        if noted.is_lacking(*literal) {
            return Some(*literal);
        }
    }
    None
}
