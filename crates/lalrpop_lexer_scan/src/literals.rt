//! The literals of a grammar, each once.

ghost use Rattle.std.specs.Prelude.{◌≡◌, ◌++◌, IfOk, OnOk, map, flat_map};
ghost use Rattle.std.specs.Ordering.{nat_cmp};
ghost use Rattle.std.specs.Cmp.Lexicographic.{slice_cmp};
ghost use Rattle.std.specs.BTreeMap.{IsOrdered};
ghost use Rattle.lalrpop_grammar_symbols.specs.Symbols.{Terminal};
ghost use Rattle.lalrpop_grammar.specs.Views.{grammar_view, alternative_view};
ghost use Rattle.lalrpop_lexer_scan.specs.Literals.{uses_in_alternative, uses_in_grammar, first_span, IsAscending, AreLiterals};
ghost use Rattle.lalrpop_lexer_scan.specs.Noting.{Notes, noted_span_of, use_view, quoted_use, regex_use};

use crate::noting::{Uses, note_symbols};
use lalrpop_grammar::{Alternative, Grammar};
use lalrpop_grammar_symbols::{Atom, Span, TerminalLiteral};
use std::alloc::{AllocError, Global};
use std::collections::BTreeMap;

/// A literal that stands in a grammar.
#[derive(PartialEq, Eq, Drop)]
pub struct UsedLiteral {
    /// The literal.
    pub literal: TerminalLiteral,
    /// Where it stands first, in reading order.
    pub span: Span,
}

/// The literals that stand in the alternatives of a grammar, at any depth of its symbols: each once, quoted ones before
/// regular expressions, each by their bytes.
pub fn entries_of(alloc: Global, grammar: &Grammar) -> Result<Vec<UsedLiteral>, AllocError>
    ensures { IfOk result (λ entries.
        AreLiterals (uses_in_grammar (grammar_view grammar.now)) (map use_view entries.items)) }
{
    let mut uses = Uses::new(alloc);
    for rule in grammar.rules() {
        note_alternatives(alloc, rule.alternatives.as_slice(), &mut uses)?;
    }
    let entries = literal_list(alloc, uses)?;
    Ok(entries)
}

/// Notes the literals of the alternatives.
fn note_alternatives(
    alloc: Global,
    alternatives: &[Alternative],
    uses: &mut Uses,
) -> Result<(), AllocError>
    ensures { OnOk result (Notes uses.old uses.new
        (flat_map (λ a. uses_in_alternative (alternative_view a)) alternatives.now)) }
{
    for alternative in alternatives {
        note_symbols(alloc, alternative.expr.as_slice(), uses)?;
    }
    Ok(())
}

/// The literals that were noted, in order.
fn literal_list(alloc: Global, uses: Uses) -> Result<Vec<UsedLiteral>, AllocError>
    ensures ascending { IfOk result (λ entries. IsAscending (map use_view entries.items)) }
    ensures each { IfOk result (λ entries.
        (t : Terminal) → first_span (map use_view entries.items) t ≡ noted_span_of uses t) }
{
    let Uses { quoted, regexes } = uses;
    let mut entries = Vec::new(alloc);
    push_quoted(quoted, &mut entries)?;
    push_regexes(regexes, &mut entries)?;
    Ok(entries)
}

fn push_quoted(
    places: BTreeMap<Atom, Span>,
    entries: &mut Vec<UsedLiteral>,
) -> Result<(), AllocError>
    ensures ordered { OnOk result (IsOrdered (slice_cmp nat_cmp) places) }
    ensures pushed { OnOk result (map use_view entries.new.items
        ≡ map use_view entries.old.items ++ map quoted_use places.entries) }
{
    for (text, span) in places {
        entries.push(UsedLiteral {
            literal: TerminalLiteral::Quoted(text),
            span,
        })?;
    }
    Ok(())
}

fn push_regexes(
    places: BTreeMap<Atom, Span>,
    entries: &mut Vec<UsedLiteral>,
) -> Result<(), AllocError>
    ensures ordered { OnOk result (IsOrdered (slice_cmp nat_cmp) places) }
    ensures pushed { OnOk result (map use_view entries.new.items
        ≡ map use_view entries.old.items ++ map regex_use places.entries) }
{
    for (text, span) in places {
        entries.push(UsedLiteral {
            literal: TerminalLiteral::Regex(text),
            span,
        })?;
    }
    Ok(())
}
