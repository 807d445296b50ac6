//! The JSON value that spells a grammar, where there is one.

ghost use Rattle.std.specs.Prelude.{◌≡◌, ◌↔◌, Ok, IfOk, IsTrue};
ghost use Rattle.serde_json.specs.Data.{Data};
ghost use Rattle.serde_json.specs.View.{members_view, view};
ghost use Rattle.lalrpop_json_values.specs.Prefix.{IsFreePrefix};
ghost use Rattle.lalrpop_json_values.specs.Spelled.{members_from};
ghost use Rattle.lalrpop_json_values.specs.Strings.{strings};
ghost use Rattle.lalrpop_json_grammar.specs.Grammars.{grammar_at};
ghost use Rattle.lalrpop_json_grammar.specs.Spelling.{first_members, spelling};
ghost use Rattle.lalrpop_json_grammar.specs.Written.{AreReadableParts, WritesGrammar, WritesAgain};

use crate::writer::fault::WriteError;
use lalrpop_grammar::Grammar;
use lalrpop_grammar_symbols::Atom;
use lalrpop_json_document::lend_value;
use lalrpop_json_items::writer::{are_readable_items, items_value};
use lalrpop_json_symbols::writer::{
    are_readable_attributes, attributes_value, is_readable_span, span_value,
};
use lalrpop_json_values::{JsonObject, Key, longest_in, prefix_past};
use serde_json::Value;
use std::alloc::{AllocError, Global};

/// Whether each part of the grammar has a spelling; its prefix isn't looked at.
fn are_readable_parts(grammar: &Grammar) -> bool
    ensures { IsTrue result ↔ AreReadableParts grammar.now }
{
    is_readable_span(grammar.span)
        && are_readable_attributes(grammar.attributes.as_slice())
        && are_readable_items(grammar.items.as_slice())
}

/// Whether the prefix is the shortest run of at least two underscores that occurs in no string of the value.
fn is_free_prefix(alloc: Global, prefix: &Atom, value: &Value) -> Result<bool, AllocError>
    ensures { IfOk result (λ is. IsTrue is
        ↔ IsFreePrefix (strings (view value.now)) prefix.now) }
{
    let document = lend_value(alloc, value)?;
    let wanted = prefix_past(alloc, longest_in(&document))?;
    Ok(wanted == *prefix)
}

/// The first members of a grammar's object, up to its items.
#[tactic(auto, unfolding(lalrpop_json_values::specs::Key::key_text))]
fn first_members(alloc: Global, grammar: &Grammar) -> Result<JsonObject, AllocError>
    ensures { IfOk result (λ object. members_view object.members.entries ≡ members_from (first_members grammar.now)) }
{
    let mut object = JsonObject::new(alloc);
    object.put(
        Key::Attributes,
        attributes_value(alloc, grammar.attributes.as_slice())?,
    )?;
    object.put(Key::Items, items_value(alloc, grammar.items.as_slice())?)?;
    Ok(object)
}

/// The grammar as an object. The prefix isn't written.
#[tactic(auto, unfolding(lalrpop_json_values::specs::Key::key_text))]
fn grammar_value(alloc: Global, grammar: &Grammar) -> Result<Value, AllocError>
    ensures { IfOk result (λ value. view value ≡ spelling grammar.now) }
{
    let mut object = first_members(alloc, grammar)?;
    object.put_text(Key::Parameters, grammar.parameters.as_str())?;
    object.put(Key::Span, span_value(alloc, grammar.span)?)?;
    object.put_text(Key::TypeParameters, grammar.type_parameters.as_str())?;
    object.put_text(Key::WhereClauses, grammar.where_clauses.as_str())?;
    Ok(object.into_value())
}

#[tactic(auto, using(crate::proofs::GrammarSpellingLemmas::grammars_told))]
fn written_value(alloc: Global, grammar: &Grammar) -> Result<Value, WriteError>
    ensures { WritesGrammar result grammar.now }
{
    if !are_readable_parts(grammar) {
        return Err(WriteError::NotWritten);
    }
    let value = grammar_value(alloc, grammar)?;
    if !is_free_prefix(alloc, &grammar.prefix, &value)? {
        return Err(WriteError::NotWritten);
    }
    Ok(value)
}

/// The one JSON value that spells the grammar.
///
/// It is the value that `read_grammar` reads as this very grammar, and a grammar that was read is written as the value
/// that it was read from.
///
/// `NotWritten` says that no value is read as the grammar: it has a tokenizer's entries, a resolved name of a rule or a
/// bare name as a symbol, an action for `@L` or `@R`, a name that is none, a span that ends before it begins or
/// beyond 2^32 - 1, an alternative whose origin isn't its own place, an entry that is mapped to error recovery, or
/// another prefix than the shortest run of at least two underscores that occurs in none of its texts. `Memory` says
/// that there was no memory.
pub fn write_grammar(alloc: Global, grammar: &Grammar) -> Result<Value, WriteError>
    ensures writes { WritesGrammar result grammar.now }
    ensures read_back { IfOk result (λ value. grammar_at (view value) ≡ Ok grammar.now) }
    ensures again { (d : Data) → grammar_at d ≡ Ok grammar.now → WritesAgain result d }
{
    written_value(alloc, grammar)
}
