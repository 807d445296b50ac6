//! The bare names that match blocks map to.

ghost use Rattle.std.specs.Prelude.{◌≡◌, ◌||◌, IfOk, OnOk};
ghost use Rattle.lalrpop_grammar_symbols.specs.Symbols.{Text};
ghost use Rattle.lalrpop_grammar.specs.Views.{item_view, match_item_view};
ghost use Rattle.lalrpop_grammar_language.specs.Enabled.{bare_of, has_text};
ghost use Rattle.lalrpop_grammar_rules.specs.RuleTable.{HasBares, bares_of_entries, bares_of_groups, bares_of_item, bares_of_items, knows, names_of};

use crate::name_set::add_name;
use lalrpop_grammar::{GrammarItem, MatchContents, MatchItem, MatchMapping};
use lalrpop_grammar_symbols::{Atom, TerminalString};
use std::alloc::{AllocError, Global};
use std::collections::HashMap;

/// The bare names that the match blocks map to, each once.
///
/// # Errors
///
/// Where memory ran out.
pub fn bare_names<'g>(
    alloc: Global,
    items: &'g [GrammarItem],
) -> Result<HashMap<&'g str, ()>, AllocError>
    ensures { IfOk result (λ bares. HasBares bares (bares_of_items items.now)) }
{
    let mut bares = HashMap::new(alloc);
    for item in items {
        add_bares(item, &mut bares)?;
    }
    Ok(bares)
}

/// Adds the bare names that the item maps to, where it is a match block.
fn add_bares<'g>(item: &'g GrammarItem, bares: &mut HashMap<&'g str, ()>) -> Result<(), AllocError>
    ensures { OnOk result ((n : Text) → knows bares.new n
        ≡ (knows bares.old n || has_text n (bares_of_item (item_view item.now)))) }
{
    match item {
        GrammarItem::MatchToken(block) => add_groups(block.contents.as_slice(), bares),
        GrammarItem::Nonterminal(_) => Ok(()),
        GrammarItem::ExternToken(_) => Ok(()),
        GrammarItem::InternToken(_) => Ok(()),
        GrammarItem::Use(_) => Ok(()),
    }
}

/// Adds the bare names that the groups of a match block map to.
fn add_groups<'g>(
    groups: &'g [MatchContents],
    bares: &mut HashMap<&'g str, ()>,
) -> Result<(), AllocError>
    ensures { OnOk result ((n : Text) → knows bares.new n
        ≡ (knows bares.old n || has_text n (bares_of_groups groups.now))) }
{
    for group in groups {
        add_entries(group.items.as_slice(), bares)?;
    }
    Ok(())
}

/// Adds the bare names that the entries map to.
fn add_entries<'g>(
    entries: &'g [MatchItem],
    bares: &mut HashMap<&'g str, ()>,
) -> Result<(), AllocError>
    ensures { OnOk result ((n : Text) → knows bares.new n
        ≡ (knows bares.old n || has_text n (bares_of_entries entries.now))) }
{
    for entry in entries {
        add_entry(entry, bares)?;
    }
    Ok(())
}

/// Adds the bare name that the entry maps to.
fn add_entry<'g>(entry: &'g MatchItem, bares: &mut HashMap<&'g str, ()>) -> Result<(), AllocError>
    ensures { OnOk result ((n : Text) → knows bares.new n
        ≡ (knows bares.old n || has_text n (bare_of (match_item_view entry.now)))) }
{
    match bare_name(entry) {
        Some(name) => add_name(name, bares),
        None => Ok(()),
    }
}

/// The bare name that the entry maps to.
fn bare_name(entry: &MatchItem) -> Option<&Atom>
    ensures { names_of result ≡ bare_of (match_item_view entry.now) }
{
    match entry {
        MatchItem::Mapped(_, mapping, _) => match mapping {
            MatchMapping::Terminal(terminal) => match terminal {
                TerminalString::Bare(name) => Some(name),
                TerminalString::Literal(_) => None,
                TerminalString::Error => None,
            },
            MatchMapping::Skip => None,
        },
        MatchItem::CatchAll(_) => None,
        MatchItem::Unmapped(_, _) => None,
    }
}
