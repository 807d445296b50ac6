//! How written trees are read from JSON values.

ghost use Rattle.std.specs.Prelude.{◌≡◌, IfOk, Ok};
ghost use Rattle.serde_json.specs.View as owned;
ghost use Rattle.lalrpop_json_document.specs.DocumentViews.{view};
ghost use Rattle.lalrpop_json_values.specs.Gives.{Gives, within};
ghost use Rattle.lalrpop_json_values.specs.Lists.{list_at};
ghost use Rattle.lalrpop_json_values.specs.Objects.{field_at};
ghost use Rattle.lalrpop_json_values.specs.Scalars.{optional};
ghost use Rattle.lalrpop_grammar.specs.declared.tree.WrittenTree.{WrittenTree};
ghost use Rattle.lalrpop_json_grammar.specs.Laws.{SpellsTree};
ghost use Rattle.lalrpop_json_grammar.specs.ReadTrees.{form_of_tree, group_tree_at, leaf_at, look_tree_at, node_at, option_tree_at, list_tree_at, tree_at};
ghost use Rattle.lalrpop_json_values.specs.declared.fault.Step.TheVariants as step;

use lalrpop_grammar::WrittenTree;
use lalrpop_grammar_symbols::{Boxed, List, NonterminalString};
use lalrpop_json_document::{JsonValue, lend_value};
use lalrpop_json_symbols::{symbols_field, terminal_field};
use lalrpop_json_values::{
    FaultKind, Form, Key, ReadError, Step, at_key, form_by_key, here, keys, member, name_field,
    null_field, number_field, outside, span_field, text_field,
};
use serde_json::Value;
use std::alloc::Global;

/// A token.
#[tactic(auto, unfolding(crate::specs::ReadTrees::leaf_at))]
fn leaf_of(alloc: Global, value: &JsonValue<'_>) -> Result<WrittenTree, ReadError>
    ensures { Gives result (leaf_at (view value.now)) }
{
    keys(alloc, value, &[Key::Span, Key::Terminal, Key::Text])?;
    let span = span_field(alloc, value, Key::Span)?;
    let terminal = terminal_field(alloc, value, Key::Terminal)?;
    let text = text_field(alloc, value, Key::Text)?;
    Ok(WrittenTree::Terminal {
        terminal,
        text,
        span,
    })
}

/// `@L` or `@R`.
#[tactic(auto, unfolding(crate::specs::ReadTrees::look_tree_at))]
fn look_of(alloc: Global, value: &JsonValue<'_>) -> Result<WrittenTree, ReadError>
    ensures { Gives result (look_tree_at (view value.now)) }
{
    keys(alloc, value, &[Key::Look])?;
    null_field(alloc, value, Key::Look)?;
    Ok(WrittenTree::Look)
}

/// A rule, by one of its alternatives.
#[cycle(trees)]
#[tactic(auto, using(crate::proofs::TreeNestingLemmas::tree_nesting), unfolding(crate::specs::ReadTrees::node_at))]
fn node_of(alloc: Global, value: &JsonValue<'_>) -> Result<WrittenTree, ReadError>
    ensures { Gives result (node_at tree_at (view value.now)) }
{
    keys(
        alloc,
        value,
        &[Key::Args, Key::Children, Key::Place, Key::Rule],
    )?;
    let args = symbols_field(alloc, value, Key::Args)?;
    let children = trees_field(alloc, value, Key::Children)?;
    let place = number_field(alloc, value, Key::Place)?;
    let rule = name_field(alloc, value, Key::Rule)?;
    Ok(WrittenTree::Rule {
        rule: NonterminalString(rule),
        args,
        place,
        children,
    })
}

/// The elements of a repetition.
#[cycle(trees)]
#[tactic(auto, using(crate::proofs::TreeNestingLemmas::tree_nesting), unfolding(crate::specs::ReadTrees::list_tree_at))]
fn repeated_of(alloc: Global, value: &JsonValue<'_>) -> Result<WrittenTree, ReadError>
    ensures { Gives result (list_tree_at tree_at (view value.now)) }
{
    keys(alloc, value, &[Key::List])?;
    let trees = trees_field(alloc, value, Key::List)?;
    Ok(WrittenTree::List(trees))
}

/// What an option holds.
#[cycle(trees)]
#[tactic(auto, using(crate::proofs::TreeNestingLemmas::tree_nesting), unfolding(crate::specs::ReadTrees::option_tree_at))]
fn option_of(alloc: Global, value: &JsonValue<'_>) -> Result<WrittenTree, ReadError>
    ensures { Gives result (option_tree_at tree_at (view value.now)) }
{
    keys(alloc, value, &[Key::Opt])?;
    let inside = optional_field(alloc, value, Key::Opt)?;
    Ok(WrittenTree::Opt(inside))
}

/// The trees of a group.
#[cycle(trees)]
#[tactic(auto, using(crate::proofs::TreeNestingLemmas::tree_nesting), unfolding(crate::specs::ReadTrees::group_tree_at))]
fn group_of(alloc: Global, value: &JsonValue<'_>) -> Result<WrittenTree, ReadError>
    ensures { Gives result (group_tree_at tree_at (view value.now)) }
{
    keys(alloc, value, &[Key::Group])?;
    let trees = trees_field(alloc, value, Key::Group)?;
    Ok(WrittenTree::Group(trees))
}

#[tactic(auto, unfolding(crate::specs::ReadTrees::form_of_tree))]
fn form_of_tree(value: &JsonValue<'_>) -> Option<Form>
    ensures { result ≡ form_of_tree (view value.now) }
{
    let rows = [
        (Key::Args, Form::Rule),
        (Key::Children, Form::Rule),
        (Key::Group, Form::Group),
        (Key::List, Form::List),
        (Key::Look, Form::Look),
        (Key::Opt, Form::Opt),
        (Key::Place, Form::Rule),
        (Key::Rule, Form::Rule),
        (Key::Span, Form::Terminal),
        (Key::Terminal, Form::Terminal),
        (Key::Text, Form::Terminal),
    ];
    form_by_key(&rows, value)
}

/// The tree that a value of a document spells, as `read_tree` reads it.
#[cycle(trees)]
#[tactic(auto, using(crate::proofs::TreeNestingLemmas::tree_nesting), unfolding(crate::specs::ReadTrees::tree_layer_at))]
pub fn tree_of_document(alloc: Global, value: &JsonValue<'_>) -> Result<WrittenTree, ReadError>
    ensures { Gives result (tree_at (view value.now)) }
{
    match form_of_tree(value) {
        Some(Form::Group) => group_of(alloc, value),
        Some(Form::List) => repeated_of(alloc, value),
        Some(Form::Look) => look_of(alloc, value),
        Some(Form::Opt) => option_of(alloc, value),
        Some(Form::Rule) => node_of(alloc, value),
        Some(Form::Terminal) => leaf_of(alloc, value),
        _ => Err(here(alloc, FaultKind::WrongShape)),
    }
}

/// `null`, or a tree.
#[cycle(trees)]
fn optional_of(
    alloc: Global,
    value: &JsonValue<'_>,
) -> Result<Option<Boxed<WrittenTree>>, ReadError>
    ensures { Gives result (optional tree_at (view value.now)) }
{
    if value.is_null() {
        return Ok(None);
    }
    let tree = tree_of_document(alloc, value)?;
    let tree = Boxed::new(alloc, tree)?;
    Ok(Some(tree))
}

#[cycle(trees)]
#[tactic(auto, using(crate::proofs::TreeNestingLemmas::tree_nesting), unfolding(lalrpop_json_values::specs::Objects::field_at, lalrpop_json_values::specs::Objects::member_at))]
fn optional_field(
    alloc: Global,
    value: &JsonValue<'_>,
    key: Key,
) -> Result<Option<Boxed<WrittenTree>>, ReadError>
    ensures { Gives result (field_at key (optional tree_at) (view value.now)) }
{
    let found = member(alloc, value, key)?;
    Ok(at_key(optional_of(alloc, found), key)?)
}

#[cycle(trees)]
fn tree_in(alloc: Global, value: &JsonValue<'_>, index: usize) -> Result<WrittenTree, ReadError>
    ensures { Gives result (within (step.Index index) (tree_at (view value.now))) }
{
    match tree_of_document(alloc, value) {
        Ok(found) => Ok(found),
        Err(error) => Err(outside(error, Step::Index(index))),
    }
}

#[cycle(trees)]
#[tactic(auto, using(crate::proofs::TreeNestingLemmas::tree_nesting, lalrpop_json_values::proofs::ListReadingLemmas::lists), unfolding(lalrpop_json_values::specs::Lists::list_at))]
fn trees_of(alloc: Global, value: &JsonValue<'_>) -> Result<List<WrittenTree>, ReadError>
    ensures { Gives result (list_at (λ _. tree_at) (view value.now)) }
{
    let Some(values) = value.as_array() else {
        return Err(here(alloc, FaultKind::WrongShape));
    };
    let mut trees = List::new(alloc);
    for (index, value) in values.iter().enumerate() {
        let tree = tree_in(alloc, value, index)?;
        trees.push(tree)?;
    }
    Ok(trees)
}

#[cycle(trees)]
#[tactic(auto, using(crate::proofs::TreeNestingLemmas::tree_nesting), unfolding(lalrpop_json_values::specs::Objects::field_at, lalrpop_json_values::specs::Objects::member_at))]
fn trees_field(
    alloc: Global,
    value: &JsonValue<'_>,
    key: Key,
) -> Result<List<WrittenTree>, ReadError>
    ensures { Gives result (field_at key (list_at (λ _. tree_at)) (view value.now)) }
{
    let found = member(alloc, value, key)?;
    Ok(at_key(trees_of(alloc, found), key)?)
}

/// The tree that a JSON value spells.
///
/// A `ReadError::Shape` holds the first fault in reading order: in an object the first missing key in byte order, then
/// the first unknown one, then the values in byte order of their keys; in a list from the front. The first of its keys that
/// belongs to a form tells the form of a tree.
pub fn read_tree(alloc: Global, value: &Value) -> Result<WrittenTree, ReadError>
    ensures reads { Gives result (tree_at (owned.view value.now)) }
    ensures spelled { IfOk result (λ tree. SpellsTree (owned.view value.now) tree) }
    ensures found { (tree : WrittenTree) → SpellsTree (owned.view value.now) tree → Gives result (Ok tree) }
{
    let document = lend_value(alloc, value)?;
    tree_of_document(alloc, &document)
}
