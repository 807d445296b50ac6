//! The first pass over a written grammar: what must not stand anywhere in it.

ghost use Rattle.std.specs.Prelude.{◌≡◌, IfErr, IfOk, OnOk};
ghost use Rattle.lalrpop_grammar_symbols.specs.Symbols.{Text};
ghost use Rattle.lalrpop_grammar_symbols.specs.Views.{span_view};
ghost use Rattle.lalrpop_grammar.specs.WrittenGrammar.{attr_id};
ghost use Rattle.lalrpop_grammar.specs.Views.{attribute_view, grammar_view};
ghost use Rattle.lalrpop_grammar_repr.specs.declared.norm_error.NormErrorKind.TheVariants as kinds;
ghost use Rattle.lalrpop_norm_prevalidate.specs.Attributes.{attr_span};
ghost use Rattle.lalrpop_norm_prevalidate.specs.Faults.{StandsNowhere, HasNoCheckFault, IsCheckFault};

use crate::attributes::unknown_attribute;
use crate::blocks::{public_inline, second_block};
use crate::entries::entry_twice;
use crate::labels::misplaced_label;
use crate::names::reserved_name;
use lalrpop_grammar::{Attribute, Grammar};
use lalrpop_grammar_repr::{NormError, NormErrorKind, NormFault, NormResult};
use lalrpop_grammar_symbols::{Atom, Span};
use std::alloc::{AllocError, Global};

/// Looks for what must not stand anywhere in a written grammar, in its disabled parts neither: a second match block (N2), an
/// attribute where none such may stand, or of another shape than it has there (N3), a public rule that is marked `inline`
/// (N4), a name that begins with the prefix (N9), a named symbol where none may stand (N10), an entry of a match block that
/// lists what an earlier one lists (N11). They are looked for in this order.
///
/// # Errors
///
/// One of them that stands, with its place, or `Memory`; never `ConditionLimit`.
pub fn validate(alloc: Global, grammar: &Grammar) -> NormResult<()>
    ensures ok { OnOk result (HasNoCheckFault (grammar_view grammar.now)) }
    ensures err { IfErr result (IsCheckFault (grammar_view grammar.now)) }
{
    check_blocks(grammar)?;
    check_attributes(grammar)?;
    check_inlines(grammar)?;
    check_names(alloc, grammar)?;
    check_labels(alloc, grammar)?;
    check_entries(alloc, grammar)
}

/// Refuses a second match block.
fn check_blocks(grammar: &Grammar) -> NormResult<()>
    ensures ok { OnOk result (StandsNowhere kinds.SecondMatchBlock (grammar_view grammar.now)) }
    ensures err { IfErr result (IsCheckFault (grammar_view grammar.now)) }
{
    match second_block(grammar) {
        None => Ok(()),
        Some(span) => Err(NormFault::Norm(NormError {
            kind: NormErrorKind::SecondMatchBlock,
            span,
        })),
    }
}

fn name_of(attribute: &Attribute) -> Result<Atom, AllocError>
    ensures { IfOk result (λ name. name ≡ attr_id (attribute_view attribute.now)) }
{
    attribute.id.try_clone()
}

fn place_of(attribute: &Attribute) -> Span
    ensures { span_view result ≡ attr_span (attribute_view attribute.now) }
{
    attribute.span
}

/// Refuses an attribute that may not stand where it does, or has another shape than it has there.
fn check_attributes(grammar: &Grammar) -> NormResult<()>
    ensures ok { OnOk result ((name : Text) → StandsNowhere (kinds.UnknownAttribute name) (grammar_view grammar.now)) }
    ensures err { IfErr result (IsCheckFault (grammar_view grammar.now)) }
{
    match unknown_attribute(grammar) {
        None => Ok(()),
        Some(attribute) => {
            let name = name_of(attribute)?;
            let span = place_of(attribute);
            Err(NormFault::Norm(NormError {
                kind: NormErrorKind::UnknownAttribute(name),
                span,
            }))
        }
    }
}

/// Refuses a public rule that is marked `inline`.
fn check_inlines(grammar: &Grammar) -> NormResult<()>
    ensures ok { OnOk result (StandsNowhere kinds.PublicInline (grammar_view grammar.now)) }
    ensures err { IfErr result (IsCheckFault (grammar_view grammar.now)) }
{
    match public_inline(grammar) {
        None => Ok(()),
        Some(span) => Err(NormFault::Norm(NormError {
            kind: NormErrorKind::PublicInline,
            span,
        })),
    }
}

/// Refuses a name that begins with the prefix.
fn check_names(alloc: Global, grammar: &Grammar) -> NormResult<()>
    ensures ok { OnOk result (StandsNowhere kinds.ReservedPrefix (grammar_view grammar.now)) }
    ensures err { IfErr result (IsCheckFault (grammar_view grammar.now)) }
{
    let found = reserved_name(alloc, grammar)?;
    match found {
        None => Ok(()),
        Some(span) => Err(NormFault::Norm(NormError {
            kind: NormErrorKind::ReservedPrefix,
            span,
        })),
    }
}

/// Refuses a named symbol where none may stand.
fn check_labels(alloc: Global, grammar: &Grammar) -> NormResult<()>
    ensures ok { OnOk result (StandsNowhere kinds.NamedNotAllowed (grammar_view grammar.now)) }
    ensures err { IfErr result (IsCheckFault (grammar_view grammar.now)) }
{
    let found = misplaced_label(alloc, grammar)?;
    match found {
        None => Ok(()),
        Some(span) => Err(NormFault::Norm(NormError {
            kind: NormErrorKind::NamedNotAllowed,
            span,
        })),
    }
}

/// Refuses an entry of a match block that lists what an earlier one lists.
fn check_entries(alloc: Global, grammar: &Grammar) -> NormResult<()>
    ensures ok { OnOk result (StandsNowhere kinds.EntryTwice (grammar_view grammar.now)) }
    ensures err { IfErr result (IsCheckFault (grammar_view grammar.now)) }
{
    let found = entry_twice(alloc, grammar)?;
    match found {
        None => Ok(()),
        Some(span) => Err(NormFault::Norm(NormError {
            kind: NormErrorKind::EntryTwice,
            span,
        })),
    }
}
