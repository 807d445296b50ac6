//! The tokenizer's entries.

ghost use Rattle.std.specs.Prelude.{◌≡◌, ℕ, ◌+◌, ◌<◌, ◌^◌, ◌++◌, ◌∷◌, [], IfOk, OnOk, flat_map, length, map};
ghost use Rattle.lalrpop_grammar_symbols.specs.Views.{literal_view};
ghost use Rattle.lalrpop_grammar.specs.WrittenGrammar.{EntryMapping};
ghost use Rattle.lalrpop_grammar.specs.Views.{entry_mapping_view, intern_entry_view, match_item_view};
ghost use Rattle.lalrpop_norm_token_check.specs.Entries.{entry as entry_made, own_entry, entries_for, entries_of_groups};

use lalrpop_grammar::{MatchContents, MatchEntry, MatchItem, MatchMapping};
use lalrpop_grammar_symbols::{List, TerminalLiteral, TerminalString};
use std::alloc::AllocError;

/// Puts the entry of a literal behind the others.
fn push_entry(
    groups: usize,
    literal: &TerminalLiteral,
    mapping: MatchMapping,
    entries: &mut List<MatchEntry>,
) -> Result<(), AllocError>
    requires { groups < 2 ^ 62 }
    ensures { OnOk result (map intern_entry_view entries.new ≡ map intern_entry_view entries.old
        ++ entry_made groups (literal_view literal.now) (entry_mapping_view mapping) ∷ []) }
{
    let precedence = 2 * groups + literal.base_precedence();
    let match_literal = literal.try_clone()?;
    entries.push(MatchEntry {
        precedence,
        match_literal,
        user_name: mapping,
    })
}

/// Puts the entry of a literal that stands for itself behind the others.
fn push_own(
    groups: usize,
    literal: &TerminalLiteral,
    entries: &mut List<MatchEntry>,
) -> Result<(), AllocError>
    requires { groups < 2 ^ 62 }
    ensures { OnOk result (map intern_entry_view entries.new ≡ map intern_entry_view entries.old
        ++ own_entry groups (literal_view literal.now) ∷ []) }
{
    let own = TerminalString::Literal(literal.try_clone()?);
    push_entry(groups, literal, MatchMapping::Terminal(own), entries)
}

/// Puts the entries of literals that stand for themselves behind the others.
pub(crate) fn push_literals(
    groups: usize,
    literals: &[&TerminalLiteral],
    entries: &mut List<MatchEntry>,
) -> Result<(), AllocError>
    requires { groups < 2 ^ 62 }
    ensures { OnOk result (map intern_entry_view entries.new ≡ map intern_entry_view entries.old
        ++ map (own_entry groups) (map (λ l. literal_view l.now) literals.now)) }
{
    for literal in literals {
        push_own(groups, *literal, entries)?;
    }
    Ok(())
}

/// Puts what an entry of a match block stands for behind the others: `_` stands for the others that no entry lists.
fn push_written(
    groups: usize,
    others: &[&TerminalLiteral],
    written: &MatchItem,
    entries: &mut List<MatchEntry>,
) -> Result<(), AllocError>
    requires { groups < 2 ^ 62 }
    ensures { OnOk result (map intern_entry_view entries.new ≡ map intern_entry_view entries.old
        ++ entries_for groups (map (λ l. literal_view l.now) others.now) (match_item_view written.now)) }
{
    match written {
        MatchItem::CatchAll(_) => push_literals(groups, others, entries),
        MatchItem::Unmapped(literal, _) => push_own(groups, literal, entries),
        MatchItem::Mapped(literal, mapping, _) => {
            let mapping = mapping.try_clone()?;
            push_entry(groups, literal, mapping, entries)
        }
    }
}

/// Puts what the entries of a group stand for behind the others.
fn push_group(
    groups: usize,
    others: &[&TerminalLiteral],
    group: &[MatchItem],
    entries: &mut List<MatchEntry>,
) -> Result<(), AllocError>
    requires { groups < 2 ^ 62 }
    ensures { OnOk result (map intern_entry_view entries.new ≡ map intern_entry_view entries.old
        ++ flat_map (entries_for groups (map (λ l. literal_view l.now) others.now)) (map match_item_view group.now)) }
{
    for written in group {
        push_written(groups, others, written, entries)?;
    }
    Ok(())
}

/// Puts what the entries of the groups stand for behind the others, those of earlier groups with greater precedences.
pub(crate) fn push_groups(
    others: &[&TerminalLiteral],
    groups: &[MatchContents],
    entries: &mut List<MatchEntry>,
) -> Result<(), AllocError>
    requires { length groups.now < 2 ^ 62 }
    ensures { OnOk result (map intern_entry_view entries.new ≡ map intern_entry_view entries.old
        ++ entries_of_groups (map (λ l. literal_view l.now) others.now) (map (λ c. map match_item_view c.items) groups.now)) }
{
    let mut rest = groups;
    while let Some((group, behind)) = rest.split_first() {
        push_group(rest.len(), others, group.items.as_slice(), entries)?;
        rest = behind;
    }
    Ok(())
}
