//! Which items of a grammar have a spelling, and the JSON value of each.

ghost use Rattle.std.specs.Prelude.{◌≡◌, ◌↔◌, ◌∷◌, [], IfOk, IsTrue};
ghost use Rattle.serde_json.specs.Data.{string};
ghost use Rattle.serde_json.specs.View.{view};
ghost use Rattle.lalrpop_json_values.specs.Spelled.{EachFrom, list_json, object_of, word_json};
ghost use Rattle.lalrpop_json_values.specs.declared.key.Key.TheVariants as key;
ghost use Rattle.lalrpop_json_values.specs.declared.word.Word.TheVariants as word;
ghost use Rattle.lalrpop_json_items.specs.Readable.{IsReadableItem};
ghost use Rattle.lalrpop_json_items.specs.Spelling.{item_json};

use crate::writer::extern_block::{extern_value, is_readable_extern};
use crate::writer::match_block::{is_readable_match, match_value};
use crate::writer::rule::{is_readable_rule, rule_value};
use lalrpop_grammar::GrammarItem;
use lalrpop_json_values::{JsonObject, Key};
use serde_json::Value;
use std::alloc::{AllocError, Global};

#[tactic(auto, using(crate::proofs::ItemSpellingLemmas::items_told))]
fn is_readable_item(item: &GrammarItem) -> bool
    ensures { IsTrue result ↔ IsReadableItem item.now }
{
    match item {
        GrammarItem::Nonterminal(rule) => is_readable_rule(rule),
        GrammarItem::MatchToken(block) => is_readable_match(block),
        GrammarItem::ExternToken(block) => is_readable_extern(block),
        GrammarItem::InternToken(_) => false,
        GrammarItem::Use(_) => true,
    }
}

/// Whether each of the grammar items has a spelling.
#[tactic(auto, using(lalrpop_json_symbols::proofs::EachLemmas::each))]
pub fn are_readable_items(items: &[GrammarItem]) -> bool
    ensures { IsTrue result ↔ EachFrom (λ _. IsReadableItem) 0 items.now }
{
    for item in items {
        if !is_readable_item(item) {
            return false;
        }
    }
    true
}

#[tactic(auto, unfolding(lalrpop_json_values::specs::Key::key_text, lalrpop_json_values::specs::Word::word_text))]
fn use_value(alloc: Global, text: &str) -> Result<Value, AllocError>
    ensures { IfOk result (λ value. view value ≡ object_of ((key.Kind, word_json word.Use) ∷ (key.Text, string text.now) ∷ [])) }
{
    let mut object = JsonObject::new(alloc);
    object.put_text(Key::Kind, "use")?;
    object.put_text(Key::Text, text)?;
    Ok(object.into_value())
}

/// The grammar item as an object. A tokenizer's entries give `null`.
#[tactic(auto)]
fn item_value(alloc: Global, item: &GrammarItem) -> Result<Value, AllocError>
    ensures { IfOk result (λ value. view value ≡ item_json item.now) }
{
    match item {
        GrammarItem::Nonterminal(rule) => rule_value(alloc, rule),
        GrammarItem::MatchToken(block) => match_value(alloc, block),
        GrammarItem::ExternToken(block) => extern_value(alloc, block),
        GrammarItem::InternToken(_) => Ok(Value::Null),
        GrammarItem::Use(text) => use_value(alloc, text.as_str()),
    }
}

/// The grammar items as a list.
#[tactic(auto, using(lalrpop_json_symbols::proofs::ListLemmas::listed))]
pub fn items_value(alloc: Global, items: &[GrammarItem]) -> Result<Value, AllocError>
    ensures { IfOk result (λ value. view value ≡ list_json item_json items.now) }
{
    let mut values = Vec::new(alloc);
    for item in items {
        values.push(item_value(alloc, item)?)?;
    }
    Ok(Value::Array(values))
}
