//! Where a literal is told, and the faults that are told of literals.

ghost use Rattle.std.specs.Prelude.{◌≡◌, List, OnOk, IfErr, None, map, option_map};
ghost use Rattle.lalrpop_grammar_symbols.specs.Views.{literal_view, span_view};
ghost use Rattle.lalrpop_grammar.specs.Views.{grammar_view, item_view, match_item_view};
ghost use Rattle.lalrpop_grammar.specs.WrittenGrammar.{InternEntry};
ghost use Rattle.lalrpop_norm_prevalidate.specs.Entries.{entry_span, literal_in_entry};
ghost use Rattle.lalrpop_norm_token_check.specs.Blocks.{
  block_groups,
  entries_in_groups,
  first_lacking as first_lacked,
  is_option_of,
};
ghost use Rattle.lalrpop_norm_token_check.specs.Entries.{AreFullEntries, AreUsed};
ghost use Rattle.lalrpop_norm_token_check.specs.EntryFaults.{IsEntryFault};
ghost use Rattle.lalrpop_norm_token_check.specs.Faults.{IsTokenFault};
ghost use Rattle.lalrpop_norm_token_check.specs.KeptPlaces.{first_places};
ghost use Rattle.lalrpop_norm_token_check.specs.Places.{listed_at, listed_in, place_of as place_told};

use crate::automaton::EntryFault;
use crate::block::first_block;
use crate::lacking::first_lacking;
use crate::noting::is_same;
use crate::places::LiteralPlaces;
use lalrpop_grammar::{Grammar, GrammarItem, MatchContents, MatchItem};
use lalrpop_grammar_repr::{NormError, NormErrorKind, NormFault, NormResult};
use lalrpop_grammar_symbols::{Span, TerminalLiteral};
use std::alloc::Global;

/// Whether the entry lists the literal.
#[tactic(auto, using(lalrpop_norm_prevalidate::proofs::EntryLemmas::literal_of_mapping))]
fn lists(entry: &MatchItem, literal: &TerminalLiteral) -> bool
    ensures { result ≡ is_option_of (literal_view literal.now) (literal_in_entry (match_item_view entry.now)) }
{
    match entry {
        MatchItem::CatchAll(_) => false,
        MatchItem::Unmapped(listed, _) => is_same(listed, literal),
        MatchItem::Mapped(listed, _, _) => is_same(listed, literal),
    }
}

/// Where the entry stands.
#[tactic(auto, using(lalrpop_norm_prevalidate::proofs::EntryLemmas::span_as_seen))]
fn span_of(entry: &MatchItem) -> Span
    ensures { span_view result ≡ entry_span (match_item_view entry.now) }
{
    entry.span()
}

/// Where the first entry of the group stands that lists the literal.
fn place_in_group(group: &[MatchItem], literal: &TerminalLiteral) -> Option<Span>
    ensures { option_map span_view result ≡ listed_at (map match_item_view group.now) (literal_view literal.now) }
{
    let mut rest = group;
    while let Some((entry, others)) = rest.split_first() {
        if lists(entry, literal) {
            return Some(span_of(entry));
        }
        rest = others;
    }
    None
}

/// Where the first entry of the groups stands that lists the literal.
fn place_in_groups(groups: &[MatchContents], literal: &TerminalLiteral) -> Option<Span>
    ensures { option_map span_view result
        ≡ listed_at (entries_in_groups (map (λ c. map match_item_view c.items) groups.now)) (literal_view literal.now) }
{
    let mut rest = groups;
    while let Some((group, others)) = rest.split_first() {
        if let Some(span) = place_in_group(group.items.as_slice(), literal) {
            return Some(span);
        }
        rest = others;
    }
    None
}

/// Where the entry of the match block stands that lists the literal.
fn place_in_block(items: &[GrammarItem], literal: &TerminalLiteral) -> Option<Span>
    ensures { option_map span_view result ≡ listed_in (block_groups (map item_view items.now)) (literal_view literal.now) }
{
    match first_block(items) {
        None => None,
        Some(block) => place_in_groups(block.contents.as_slice(), literal),
    }
}

/// Where the literal is told: at the entry of the match block that lists it, else where it stands first in the written
/// grammar, else at the grammar.
fn place_of(grammar: &Grammar, places: &LiteralPlaces, literal: &TerminalLiteral) -> Span
    ensures { span_view result
        ≡ place_told (first_places places.now) (grammar_view grammar.now) (literal_view literal.now) }
{
    match place_in_block(grammar.items.as_slice(), literal) {
        Some(span) => span,
        None => match places.get(literal) {
            Some(span) => span,
            None => grammar.span,
        },
    }
}

/// Refuses the first of the literals in use that the grammar's match block lacks.
pub(crate) fn check_block(
    alloc: Global,
    grammar: &Grammar,
    places: &LiteralPlaces,
    used: &[&TerminalLiteral],
) -> NormResult<()>
    ensures ok { OnOk result (first_lacked (block_groups (map item_view grammar.now.items)) (map (λ l. literal_view l.now) used.now)
        ≡ None) }
    ensures err { IfErr result (λ fault. AreUsed (grammar_view grammar.now) (map (λ l. literal_view l.now) used.now)
        → IsTokenFault (first_places places.now) (grammar_view grammar.now) fault) }
{
    let found = first_lacking(alloc, grammar, used)?;
    match found {
        None => Ok(()),
        Some(literal) => {
            let span = place_of(grammar, places, literal);
            Err(NormFault::Norm(NormError {
                kind: NormErrorKind::NotInMatchBlock(literal.try_clone()?),
                span,
            }))
        }
    }
}

/// What is told of the fault of a grammar's entries.
pub(crate) fn fault_told(grammar: &Grammar, places: &LiteralPlaces, fault: EntryFault) -> NormFault
    ensures { (entries : List InternEntry) → AreFullEntries (grammar_view grammar.now) entries → IsEntryFault entries fault
        → IsTokenFault (first_places places.now) (grammar_view grammar.now) result }
{
    match fault {
        EntryFault::Refused(literal) => {
            let span = place_of(grammar, places, &literal);
            NormFault::Norm(NormError {
                kind: NormErrorKind::PatternRefused(literal),
                span,
            })
        }
        EntryFault::Tied(first, second) => {
            let span = place_of(grammar, places, &first);
            NormFault::Norm(NormError {
                kind: NormErrorKind::SameText(first, second),
                span,
            })
        }
        EntryFault::Memory => NormFault::Memory,
    }
}
