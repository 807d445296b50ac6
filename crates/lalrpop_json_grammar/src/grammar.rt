//! How grammars are read from JSON values.

ghost use Rattle.std.specs.Prelude.{◌≡◌, IfOk, Ok};
ghost use Rattle.serde_json.specs.View.{view};
ghost use Rattle.lalrpop_json_document.specs.DocumentViews as documents;
ghost use Rattle.lalrpop_json_values.specs.Gives.{Gives};
ghost use Rattle.lalrpop_json_grammar.specs.Grammars.{grammar_at, heading_at};
ghost use Rattle.lalrpop_json_grammar.specs.Laws.{Spells};
ghost use Rattle.lalrpop_json_grammar.specs.Spelling.{texts_of};
ghost use Rattle.lalrpop_json_values.specs.Prefix.{IsFreePrefix};
ghost use Rattle.lalrpop_grammar.specs.declared.grammar.Grammar.{Grammar};

use lalrpop_grammar::Grammar;
use lalrpop_grammar_symbols::{Atom, Span};
use lalrpop_json_document::{JsonValue, lend_value};
use lalrpop_json_items::items_field;
use lalrpop_json_symbols::attributes_field;
use lalrpop_json_values::{Key, ReadError, keys, longest_in, prefix_past, span_field, text_field};
use serde_json::Value;
use std::alloc::Global;

/// What stands at the head of a grammar, and its place in the text.
struct Heading {
    parameters: Atom,
    span: Span,
    type_parameters: Atom,
    where_clauses: Atom,
}

/// What stands at the head of a grammar, and its place in the text.
#[tactic(auto, unfolding(crate::specs::Grammars::heading_at))]
fn heading_of(alloc: Global, value: &JsonValue<'_>) -> Result<Heading, ReadError>
    ensures { Gives result (heading_at (documents.view value.now)) }
{
    let parameters = text_field(alloc, value, Key::Parameters)?;
    let span = span_field(alloc, value, Key::Span)?;
    let type_parameters = text_field(alloc, value, Key::TypeParameters)?;
    let where_clauses = text_field(alloc, value, Key::WhereClauses)?;
    Ok(Heading {
        parameters,
        span,
        type_parameters,
        where_clauses,
    })
}

/// The grammar that a value of a document spells, as `read_grammar` reads it.
#[tactic(auto, unfolding(crate::specs::Grammars::grammar_at, crate::specs::Grammars::heading_at))]
pub fn grammar_of_document(alloc: Global, value: &JsonValue<'_>) -> Result<Grammar, ReadError>
    ensures { Gives result (grammar_at (documents.view value.now)) }
{
    keys(
        alloc,
        value,
        &[
            Key::Attributes,
            Key::Items,
            Key::Parameters,
            Key::Span,
            Key::TypeParameters,
            Key::WhereClauses,
        ],
    )?;
    let attributes = attributes_field(alloc, value, Key::Attributes)?;
    let items = items_field(alloc, value, Key::Items)?;
    let prefix = prefix_past(alloc, longest_in(value))?;
    let Heading {
        parameters,
        span,
        type_parameters,
        where_clauses,
    } = heading_of(alloc, value)?;
    Ok(Grammar {
        prefix,
        span,
        parameters,
        type_parameters,
        where_clauses,
        attributes,
        items,
    })
}

/// The grammar that a JSON value spells.
///
/// A `ReadError::Shape` holds the first fault in reading order: in an object the first missing key in byte order, then
/// the first unknown one, then the values in byte order of their keys; in a list from the front. Where a value has several
/// forms, `kind` tells its form, or else the first of its keys that belongs to one.
///
/// The prefix of the grammar is the shortest run of at least two underscores that occurs in none of its texts.
pub fn read_grammar(alloc: Global, value: &Value) -> Result<Grammar, ReadError>
    ensures reads { Gives result (grammar_at (view value.now)) }
    ensures spelled { IfOk result (λ grammar. Spells (view value.now) grammar) }
    ensures found { (grammar : Grammar) → Spells (view value.now) grammar → Gives result (Ok grammar) }
    ensures prefix { IfOk result (λ grammar. IsFreePrefix (texts_of grammar) grammar.prefix) }
{
    let document = lend_value(alloc, value)?;
    grammar_of_document(alloc, &document)
}
