//! What the entries of a match block list and give, and which literals a block lacks.

ghost use Rattle.std.specs.Prelude.{◌≡◌, [], ◌∷◌, IfOk, OnOk, List, map, option_map};
ghost use Rattle.lalrpop_grammar_symbols.specs.Views.{literal_view};
ghost use Rattle.lalrpop_grammar.specs.WrittenGrammar.{WrittenEntry};
ghost use Rattle.lalrpop_grammar.specs.Views.{entry_mapping_view, match_item_view};
ghost use Rattle.lalrpop_norm_token_check.specs.Blocks.{
  entries_in_groups,
  is_lacking as lacks,
  lists_literal as lists,
  literal_mapped,
  is_mapped_to,
};
ghost use Rattle.lalrpop_lexer_scan.specs.Literals.{same_terminal};
ghost use Rattle.lalrpop_norm_token_check.specs.Noting.{Adds, NotesEntries, HasNoted, literals_of, list_unless};

use lalrpop_grammar::{MatchContents, MatchItem, MatchMapping};
use lalrpop_grammar_symbols::{TerminalLiteral, TerminalString};
use std::alloc::{AllocError, Global};
use std::collections::BTreeSet;

/// What the entries of a match block list, give and turn into something else.
#[derive(Drop)]
pub(crate) struct Noted<'g> {
    // The literals that entries list.
    listed: BTreeSet<&'g TerminalLiteral>,
    // The literals that entries give to what they match.
    given: BTreeSet<&'g TerminalLiteral>,
    // The listed literals that are skipped, or of which something else is made.
    turned: BTreeSet<&'g TerminalLiteral>,
    // Whether `_` is one of the entries.
    has_rest: bool,
}

impl<'g> Noted<'g> {
    /// Whether an entry lists the literal.
    pub(crate) fn is_listed(&self, literal: &'g TerminalLiteral) -> bool
        ensures { (entries : List WrittenEntry) → HasNoted self.now entries → result ≡ lists entries (literal_view literal.now) }
    {
        self.listed.contains(&literal)
    }

    /// Whether the block lacks the literal: no entry gives it and no `_` takes it, or one that lists it makes something else
    /// of it.
    pub(crate) fn is_lacking(&self, literal: &'g TerminalLiteral) -> bool
        ensures { (entries : List WrittenEntry) → HasNoted self.now entries → result ≡ lacks entries (literal_view literal.now) }
    {
        let is_caught = self.has_rest && !self.listed.contains(&literal);
        let is_given = self.given.contains(&literal) || is_caught;
        !is_given || self.turned.contains(&literal)
    }
}

/// What the entries of the groups list and give.
pub(crate) fn noted_in<'g>(
    alloc: Global,
    groups: &'g [MatchContents],
) -> Result<Noted<'g>, AllocError>
    ensures { IfOk result (λ noted. HasNoted noted (entries_in_groups (map (λ c. map match_item_view c.items) groups.now))) }
{
    let mut noted = Noted {
        listed: BTreeSet::new(alloc),
        given: BTreeSet::new(alloc),
        turned: BTreeSet::new(alloc),
        has_rest: false,
    };
    note_groups(groups, &mut noted)?;
    Ok(noted)
}

/// Notes what the entries of the groups list and give.
fn note_groups<'g>(groups: &'g [MatchContents], noted: &mut Noted<'g>) -> Result<(), AllocError>
    ensures { OnOk result (NotesEntries noted.old noted.new (entries_in_groups (map (λ c. map match_item_view c.items) groups.now))) }
{
    for group in groups {
        note_group(group.items.as_slice(), noted)?;
    }
    Ok(())
}

/// Notes what the entries of the group list and give.
fn note_group<'g>(group: &'g [MatchItem], noted: &mut Noted<'g>) -> Result<(), AllocError>
    ensures { OnOk result (NotesEntries noted.old noted.new (map match_item_view group.now)) }
{
    for entry in group {
        note_entry(entry, noted)?;
    }
    Ok(())
}

/// Notes what the entry lists and gives.
fn note_entry<'g>(entry: &'g MatchItem, noted: &mut Noted<'g>) -> Result<(), AllocError>
    ensures { OnOk result (NotesEntries noted.old noted.new (match_item_view entry.now ∷ [])) }
{
    match entry {
        MatchItem::CatchAll(_) => {
            noted.has_rest = true;
            Ok(())
        }
        MatchItem::Unmapped(literal, _) => {
            add(literal, &mut noted.listed)?;
            add(literal, &mut noted.given)
        }
        MatchItem::Mapped(literal, mapping, _) => {
            add(literal, &mut noted.listed)?;
            add_some(literal_of(mapping), &mut noted.given)?;
            add_unless(gives(mapping, literal), literal, &mut noted.turned)
        }
    }
}

/// The literal that the matches become, where they become one.
fn literal_of(mapping: &MatchMapping) -> Option<&TerminalLiteral>
    ensures { option_map (λ l. literal_view l.now) result ≡ literal_mapped (entry_mapping_view mapping.now) }
{
    match mapping {
        MatchMapping::Terminal(terminal) => match terminal {
            TerminalString::Literal(literal) => Some(literal),
            TerminalString::Bare(_) => None,
            TerminalString::Error => None,
        },
        MatchMapping::Skip => None,
    }
}

/// Whether the matches become this literal.
fn gives(mapping: &MatchMapping, literal: &TerminalLiteral) -> bool
    ensures { result ≡ is_mapped_to (literal_view literal.now) (entry_mapping_view mapping.now) }
{
    match literal_of(mapping) {
        Some(given) => is_same(given, literal),
        None => false,
    }
}

/// Puts the literal into the set.
fn add<'g>(
    literal: &'g TerminalLiteral,
    literals: &mut BTreeSet<&'g TerminalLiteral>,
) -> Result<(), AllocError>
    ensures { OnOk result (Adds literals.old literals.new (literal_view literal.now ∷ [])) }
{
    literals.insert(literal)?;
    Ok(())
}

/// Puts the literal into the set, where there is one.
fn add_some<'g>(
    literal: Option<&'g TerminalLiteral>,
    literals: &mut BTreeSet<&'g TerminalLiteral>,
) -> Result<(), AllocError>
    ensures { OnOk result (Adds literals.old literals.new (literals_of (option_map (λ l. literal_view l.now) literal.entry))) }
{
    match literal {
        Some(literal) => add(literal, literals),
        None => Ok(()),
    }
}

/// Puts the literal into the set, unless it is to stay outside.
fn add_unless<'g>(
    outside: bool,
    literal: &'g TerminalLiteral,
    literals: &mut BTreeSet<&'g TerminalLiteral>,
) -> Result<(), AllocError>
    ensures { OnOk result (Adds literals.old literals.new (list_unless outside (literal_view literal.now))) }
{
    if outside {
        Ok(())
    } else {
        add(literal, literals)
    }
}

/// Whether they are the same literal.
pub(crate) fn is_same(one: &TerminalLiteral, other: &TerminalLiteral) -> bool
    ensures { result ≡ same_terminal (literal_view one.now) (literal_view other.now) }
{
    match one {
        TerminalLiteral::Quoted(text) => match other {
            TerminalLiteral::Quoted(other) => text.as_str() == other.as_str(),
            TerminalLiteral::Regex(_) => false,
        },
        TerminalLiteral::Regex(text) => match other {
            TerminalLiteral::Quoted(_) => false,
            TerminalLiteral::Regex(other) => text.as_str() == other.as_str(),
        },
    }
}
