//! Where keys are met first.

ghost use Rattle.std.specs.Prelude.{◌≡◌, ◌++◌, ◌∷◌, [], List, IfOk, OnOk, map, option_map, slice_get};
ghost use Rattle.lalrpop_grammar_symbols.specs.Views.{span_view};
ghost use Rattle.lalrpop_grammar_rules.specs.Views.{closed_view};
ghost use Rattle.lalrpop_norm_keys.specs.MetKeys as definitions;
ghost use Rattle.lalrpop_norm_keys.specs.Tables.{IsKeyIndex, table_keys};
ghost use Rattle.lalrpop_norm_keys.specs.FirstPlaces.{AreKeySpans, IsFirstPlace, IsKeySpan, TellFirst};
ghost use Rattle.lalrpop_norm_keys.specs.Views.{met_view};

use crate::key_places::meeting::MetKey;
use crate::key_table::KeyTable;
use lalrpop_grammar_rules::closed::ClosedSymbol;
use lalrpop_grammar_symbols::{List, Span};
use std::alloc::{AllocError, Global};

/// Keys that are met, each once, and where each is met first.
#[derive(Drop)]
pub(crate) struct FirstPlaces {
    pub(crate) keys: KeyTable,
    pub(crate) spans: List<Span>,
}

/// Notes that the key is met, behind those before it.
fn note_first(alloc: Global, met: &MetKey, first: &mut FirstPlaces) -> Result<(), AllocError>
    requires { IsKeyIndex first.old.keys }
    ensures indexed { OnOk result (IsKeyIndex first.new.keys) }
    ensures told { OnOk result ((ms : List definitions.MetKey)
        → TellFirst ms (table_keys first.old.keys) (map span_view first.old.spans)
        → TellFirst (ms ++ met_view met.now ∷ []) (table_keys first.new.keys) (map span_view first.new.spans)) }
{
    match first.keys.find(alloc, &met.key)? {
        Some(_) => Ok(()),
        None => {
            first.keys.add(alloc, &met.key)?;
            first.spans.push(met.span)?;
            Ok(())
        }
    }
}

/// Where keys are met first.
fn first_places(alloc: Global, met: &[MetKey]) -> Result<FirstPlaces, AllocError>
    ensures indexed { IfOk result (λ first. IsKeyIndex first.keys) }
    ensures told { IfOk result (λ first. TellFirst (map met_view met.now) (table_keys first.keys) (map span_view first.spans)) }
{
    let mut first = FirstPlaces {
        keys: KeyTable::new(alloc),
        spans: List::new(alloc),
    };
    for each in met {
        note_first(alloc, each, &mut first)?;
    }
    Ok(first)
}

/// Where the key is met first.
fn first_place(
    alloc: Global,
    first: &FirstPlaces,
    key: &ClosedSymbol,
) -> Result<Option<Span>, AllocError>
    requires { IsKeyIndex first.now.keys }
    ensures { IfOk result (λ found. (ms : List definitions.MetKey)
        → TellFirst ms (table_keys first.now.keys) (map span_view first.now.spans)
        → IsFirstPlace ms (closed_view key.now) (option_map span_view found)) }
{
    match first.keys.find(alloc, key)? {
        Some(place) => Ok(span_at(first.spans.as_slice(), place)),
        None => Ok(None),
    }
}

/// The span at the place, where there is one.
fn span_at(spans: &[Span], place: usize) -> Option<Span>
    ensures { option_map span_view result ≡ slice_get (map span_view spans.now) place }
{
    if place < spans.len() {
        Some(spans[place])
    } else {
        None
    }
}

/// Where the key's rule stands.
fn key_span(
    alloc: Global,
    first: &FirstPlaces,
    otherwise: Span,
    key: &ClosedSymbol,
) -> Result<Span, AllocError>
    requires { IsKeyIndex first.now.keys }
    ensures { IfOk result (λ span. (ms : List definitions.MetKey)
        → TellFirst ms (table_keys first.now.keys) (map span_view first.now.spans)
        → IsKeySpan ms (span_view otherwise) (closed_view key.now) (span_view span)) }
{
    match first_place(alloc, first, key)? {
        Some(span) => Ok(span),
        None => Ok(otherwise),
    }
}

/// Where the keys' rules stand, in order: each where it is met first, and at the other place where it is met nowhere.
pub(crate) fn spans_of_keys(
    alloc: Global,
    keys: &[ClosedSymbol],
    met: &[MetKey],
    otherwise: Span,
) -> Result<List<Span>, AllocError>
    ensures { IfOk result (λ spans. AreKeySpans (map met_view met.now) (span_view otherwise) (map closed_view keys.now)
        (map span_view spans)) }
{
    let first = first_places(alloc, met)?;
    let mut spans = List::new(alloc);
    for key in keys {
        spans.push(key_span(alloc, &first, otherwise, key)?)?;
    }
    Ok(spans)
}
