//! How the items of a grammar are read from JSON values.

ghost use Rattle.std.specs.Prelude.{◌≡◌};
ghost use Rattle.lalrpop_json_document.specs.DocumentViews.{view};
ghost use Rattle.lalrpop_json_values.specs.Gives.{Gives, within};
ghost use Rattle.lalrpop_json_values.specs.Lists.{list_at};
ghost use Rattle.lalrpop_json_values.specs.Objects.{field_at};
ghost use Rattle.lalrpop_json_items.specs.Items.{import_at, item_at, item_form};
ghost use Rattle.lalrpop_json_values.specs.declared.fault.Step.TheVariants as step;

use crate::extern_block::extern_of;
use crate::match_block::match_of;
use crate::rule::rule_of;
use lalrpop_grammar::GrammarItem;
use lalrpop_grammar_symbols::List;
use lalrpop_json_document::JsonValue;
use lalrpop_json_values::{
    FaultKind, Form, Key, ReadError, Word, at_index, at_key, form_of, here, keys, member,
    text_field, word_field,
};
use std::alloc::Global;

/// An import.
#[tactic(auto, unfolding(crate::specs::Items::import_at))]
fn import_of(alloc: Global, value: &JsonValue<'_>) -> Result<GrammarItem, ReadError>
    ensures { Gives result (import_at (view value.now)) }
{
    keys(alloc, value, &[Key::Kind, Key::Text])?;
    word_field(alloc, value, Key::Kind, Word::Use)?;
    let text = text_field(alloc, value, Key::Text)?;
    Ok(GrammarItem::Use(text))
}

#[tactic(auto, unfolding(crate::specs::Items::item_form))]
fn item_form(value: &JsonValue<'_>) -> Option<Form>
    ensures { result ≡ item_form (view value.now) }
{
    let words = [
        (Word::Extern, Form::Extern),
        (Word::Match, Form::Match),
        (Word::Rule, Form::Rule),
        (Word::Use, Form::Use),
    ];
    let rows = [
        (Key::Alternatives, Form::Rule),
        (Key::Args, Form::Rule),
        (Key::Associated, Form::Extern),
        (Key::Attributes, Form::Rule),
        (Key::Contents, Form::Match),
        (Key::Enum, Form::Extern),
        (Key::Name, Form::Rule),
        (Key::Span, Form::Rule),
        (Key::Text, Form::Use),
        (Key::DeclaredType, Form::Rule),
        (Key::Visibility, Form::Rule),
    ];
    form_of(&words, &rows, value)
}

/// An item of a grammar.
#[tactic(auto, unfolding(crate::specs::Items::item_at))]
pub fn item_of(alloc: Global, value: &JsonValue<'_>) -> Result<GrammarItem, ReadError>
    ensures { Gives result (item_at (view value.now)) }
{
    match item_form(value) {
        Some(Form::Extern) => {
            let block = extern_of(alloc, value)?;
            Ok(GrammarItem::ExternToken(block))
        }
        Some(Form::Match) => {
            let block = match_of(alloc, value)?;
            Ok(GrammarItem::MatchToken(block))
        }
        Some(Form::Rule) => {
            let rule = rule_of(alloc, value)?;
            Ok(GrammarItem::Nonterminal(rule))
        }
        Some(Form::Use) => import_of(alloc, value),
        _ => Err(here(alloc, FaultKind::WrongShape)),
    }
}

fn item_in(alloc: Global, value: &JsonValue<'_>, index: usize) -> Result<GrammarItem, ReadError>
    ensures { Gives result (within (step.Index index) (item_at (view value.now))) }
{
    Ok(at_index(item_of(alloc, value), index)?)
}

/// A list of grammar items.
#[tactic(auto, using(lalrpop_json_values::proofs::ListReadingLemmas::lists), unfolding(lalrpop_json_values::specs::Lists::list_at))]
fn items_of(alloc: Global, value: &JsonValue<'_>) -> Result<List<GrammarItem>, ReadError>
    ensures { Gives result (list_at (λ _. item_at) (view value.now)) }
{
    let Some(values) = value.as_array() else {
        return Err(here(alloc, FaultKind::WrongShape));
    };
    let mut found = List::new(alloc);
    for (index, value) in values.iter().enumerate() {
        let item = item_in(alloc, value, index)?;
        found.push(item)?;
    }
    Ok(found)
}

/// The grammar items at a key.
#[tactic(auto, unfolding(lalrpop_json_values::specs::Objects::field_at, lalrpop_json_values::specs::Objects::member_at))]
pub fn items_field(
    alloc: Global,
    value: &JsonValue<'_>,
    key: Key,
) -> Result<List<GrammarItem>, ReadError>
    ensures { Gives result (field_at key (list_at (λ _. item_at)) (view value.now)) }
{
    let found = member(alloc, value, key)?;
    Ok(at_key(items_of(alloc, found), key)?)
}
