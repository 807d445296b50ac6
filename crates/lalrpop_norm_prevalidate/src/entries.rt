//! Entries of match blocks that list what an earlier one lists.
#![tactic(auto)]

ghost use Rattle.std.specs.Prelude.{◌≡◌, ◌++◌, IfOk, OnOk, flat_map, map, option_map};
ghost use Rattle.lalrpop_grammar_symbols.specs.Views.{literal_view, span_view};
ghost use Rattle.lalrpop_grammar.specs.Views.{match_item_view, item_view};
ghost use Rattle.lalrpop_norm_prevalidate.specs.Entries.{
  literal_in_entry,
  entry_span,
  entries_in_item,
  entries_in_items,
  IsFirstAgain,
};

use lalrpop_grammar::{Grammar, GrammarItem, MatchContents, MatchItem};
use lalrpop_grammar_symbols::{Span, TerminalLiteral};
use std::alloc::{AllocError, Global};
use std::collections::BTreeSet;

/// The literal that the entry lists; none for `_`.
#[tactic(auto, using(crate::proofs::EntryLemmas::literal_of_mapping))]
fn literal_in(entry: &MatchItem) -> Option<&TerminalLiteral>
    ensures { option_map (λ l. literal_view l.now) result ≡ literal_in_entry (match_item_view entry.now) }
{
    match entry {
        MatchItem::CatchAll(_) => None,
        MatchItem::Unmapped(literal, _) => Some(literal),
        MatchItem::Mapped(literal, _, _) => Some(literal),
    }
}

/// Where the entry stands.
#[tactic(auto, using(crate::proofs::EntryLemmas::span_as_seen))]
fn span_of(entry: &MatchItem) -> Span
    ensures { span_view result ≡ entry_span (match_item_view entry.now) }
{
    entry.span()
}

/// Puts the entries of a group behind the others.
fn push_entries<'g>(
    group: &'g [MatchItem],
    entries: &mut Vec<&'g MatchItem>,
) -> Result<(), AllocError>
    ensures { OnOk result (map (λ e. match_item_view e.now) entries.new.items
        ≡ map (λ e. match_item_view e.now) entries.old.items ++ map match_item_view group.now) }
{
    for entry in group {
        entries.push(entry)?;
    }
    Ok(())
}

/// Puts the entries of the groups of a match block behind the others.
fn push_groups<'g>(
    groups: &'g [MatchContents],
    entries: &mut Vec<&'g MatchItem>,
) -> Result<(), AllocError>
    ensures { OnOk result (map (λ e. match_item_view e.now) entries.new.items
        ≡ map (λ e. match_item_view e.now) entries.old.items
        ++ flat_map (λ es. es) (map (λ c. map match_item_view c.items) groups.now)) }
{
    for group in groups {
        push_entries(group.items.as_slice(), entries)?;
    }
    Ok(())
}

/// Puts the entries of the item behind the others, where it is a match block.
fn push_item<'g>(item: &'g GrammarItem, entries: &mut Vec<&'g MatchItem>) -> Result<(), AllocError>
    ensures { OnOk result (map (λ e. match_item_view e.now) entries.new.items
        ≡ map (λ e. match_item_view e.now) entries.old.items ++ entries_in_item (item_view item.now)) }
{
    match item {
        GrammarItem::MatchToken(block) => push_groups(block.contents.as_slice(), entries),
        GrammarItem::ExternToken(_) => Ok(()),
        GrammarItem::InternToken(_) => Ok(()),
        GrammarItem::Nonterminal(_) => Ok(()),
        GrammarItem::Use(_) => Ok(()),
    }
}

/// The entries of all match blocks, in reading order.
fn entries_in<'g>(alloc: Global, items: &'g [GrammarItem]) -> Result<Vec<&'g MatchItem>, AllocError>
    ensures { IfOk result (λ entries. map (λ e. match_item_view e.now) entries.items
        ≡ entries_in_items (map item_view items.now)) }
{
    let mut entries = Vec::new(alloc);
    for item in items {
        push_item(item, &mut entries)?;
    }
    Ok(entries)
}

/// Where the first of the entries stands that lists what one before it lists.
fn first_again<'g>(alloc: Global, entries: &[&'g MatchItem]) -> Result<Option<Span>, AllocError>
    ensures { IfOk result (λ span. IsFirstAgain (map (λ e. match_item_view e.now) entries.now)
        (option_map span_view span)) }
{
    let mut literals: BTreeSet<Option<&'g TerminalLiteral>> = BTreeSet::new(alloc);
    for entry in entries {
        let is_first = literals.insert(literal_in(*entry))?;
        if !is_first {
            return Ok(Some(span_of(*entry)));
        }
    }
    Ok(None)
}

/// Where the first entry, in reading order, lists what an earlier one lists, in whichever match block.
pub(crate) fn entry_twice(alloc: Global, grammar: &Grammar) -> Result<Option<Span>, AllocError>
    ensures { IfOk result (λ span. IsFirstAgain (entries_in_items (map item_view grammar.now.items))
        (option_map span_view span)) }
{
    let entries = entries_in(alloc, grammar.items.as_slice())?;
    first_again(alloc, entries.as_slice())
}
