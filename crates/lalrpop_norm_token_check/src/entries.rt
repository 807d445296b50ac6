//! The tokenizer's entries of a grammar.

ghost use Rattle.std.specs.Prelude.{◌≡◌, ◌++◌, IfOk, OnOk, List, Some, map};
ghost use Rattle.lalrpop_grammar_symbols.specs.Views.{literal_view};
ghost use Rattle.lalrpop_grammar.specs.WrittenGrammar.{WrittenEntry};
ghost use Rattle.lalrpop_grammar.specs.Views.{grammar_view, intern_entry_view, item_view, match_item_view};
ghost use Rattle.lalrpop_lexer_scan.specs.Noting.{use_view};
ghost use Rattle.lalrpop_norm_token_check.specs.Blocks.{block_groups};
ghost use Rattle.lalrpop_norm_token_check.specs.Entries.{
  own_entry,
  tokenizer_entries,
  not_listed,
  with_entries as has_entries,
};
ghost use Rattle.lalrpop_norm_token_check.specs.Noting.{HasNoted, list_unless};

use crate::block::first_block;
use crate::making::{push_groups, push_literals};
use crate::noting::{Noted, noted_in};
use lalrpop_grammar::{Grammar, GrammarItem, InternToken, MatchContents, MatchEntry};
use lalrpop_grammar_symbols::{List, TerminalLiteral};
use lalrpop_lexer_scan::UsedLiteral;
use std::alloc::{AllocError, Global};

/// The literals in use, without their places.
pub(crate) fn literals_in<'g>(
    alloc: Global,
    uses: &'g [UsedLiteral],
) -> Result<Vec<&'g TerminalLiteral>, AllocError>
    ensures { IfOk result (λ literals. map (λ l. literal_view l.now) literals.items
        ≡ map (λ u. u.literal) (map use_view uses.now)) }
{
    let mut literals = Vec::new(alloc);
    for one in uses {
        literals.push(&one.literal)?;
    }
    Ok(literals)
}

/// The tokenizer's entries: those of the match block, or without a block each literal in use for itself.
pub(crate) fn make_entries(
    alloc: Global,
    grammar: &Grammar,
    used: &[&TerminalLiteral],
) -> Result<List<MatchEntry>, AllocError>
    ensures { IfOk result (λ entries. map intern_entry_view entries
        ≡ tokenizer_entries (block_groups (map item_view grammar.now.items)) (map (λ l. literal_view l.now) used.now)) }
{
    match first_block(grammar.items.as_slice()) {
        None => own_entries(alloc, used),
        Some(block) => block_entries(alloc, block.contents.as_slice(), used),
    }
}

/// The entries of literals that stand for themselves, in one group.
fn own_entries(alloc: Global, used: &[&TerminalLiteral]) -> Result<List<MatchEntry>, AllocError>
    ensures { IfOk result (λ entries. map intern_entry_view entries
        ≡ map (own_entry 1) (map (λ l. literal_view l.now) used.now)) }
{
    let mut entries = List::new(alloc);
    push_literals(1, used, &mut entries)?;
    Ok(entries)
}

/// The entries of a match block.
fn block_entries<'g>(
    alloc: Global,
    groups: &'g [MatchContents],
    used: &[&'g TerminalLiteral],
) -> Result<List<MatchEntry>, AllocError>
    ensures { IfOk result (λ entries. map intern_entry_view entries
        ≡ tokenizer_entries (Some (map (λ c. map match_item_view c.items) groups.now)) (map (λ l. literal_view l.now) used.now)) }
{
    let noted = noted_in(alloc, groups)?;
    let others = other_literals(alloc, &noted, used)?;
    let mut entries = List::new(alloc);
    push_groups(others.as_slice(), groups, &mut entries)?;
    Ok(entries)
}

/// The literals that no entry of the match block lists.
fn other_literals<'g>(
    alloc: Global,
    noted: &Noted<'g>,
    used: &[&'g TerminalLiteral],
) -> Result<Vec<&'g TerminalLiteral>, AllocError>
    ensures { IfOk result (λ others. (entries : List WrittenEntry) → HasNoted noted.now entries
        → map (λ l. literal_view l.now) others.items ≡ not_listed entries (map (λ l. literal_view l.now) used.now)) }
{
    let mut others = Vec::new(alloc);
    for literal in used {
        push_unless(noted.is_listed(*literal), *literal, &mut others)?;
    }
    Ok(others)
}

/// Puts the literal behind the others, unless it is to stay outside.
fn push_unless<'g>(
    outside: bool,
    literal: &'g TerminalLiteral,
    literals: &mut Vec<&'g TerminalLiteral>,
) -> Result<(), AllocError>
    ensures { OnOk result (map (λ l. literal_view l.now) literals.new.items
        ≡ map (λ l. literal_view l.now) literals.old.items ++ list_unless outside (literal_view literal.now)) }
{
    if !outside {
        literals.push(literal)?;
    }
    Ok(())
}

/// The grammar with the entries behind its items.
pub(crate) fn with_entries(
    mut grammar: Grammar,
    entries: List<MatchEntry>,
) -> Result<Grammar, AllocError>
    ensures { IfOk result (λ whole. grammar_view whole
        ≡ has_entries (map intern_entry_view entries) (grammar_view grammar)) }
{
    let item = GrammarItem::InternToken(InternToken {
        match_entries: entries,
    });
    grammar.items.push(item)?;
    Ok(grammar)
}
