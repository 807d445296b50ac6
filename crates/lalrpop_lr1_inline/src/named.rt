//! Which nonterminals are inlined, and sets of names.

ghost use Rattle.std.specs.Prelude.{◌≡◌, ◌||◌, OnOk};
ghost use Rattle.std.specs.List.{list_any};
ghost use Rattle.std.specs.Str.{bytes_eq};
ghost use Rattle.lalrpop_grammar_symbols.specs.Symbols.{Text};
ghost use Rattle.lalrpop_grammar_rules.specs.RuleTable.{knows};
ghost use Rattle.lalrpop_lr1_inline.specs.InlinedNames.{is_inline_mark, is_inlined_name, is_marked_inline};

use lalrpop_grammar::Attribute;
use lalrpop_grammar_repr::{Grammar, NonterminalData};
use lalrpop_grammar_rules::INLINE;
use lalrpop_grammar_symbols::NonterminalString;
use std::alloc::AllocError;
use std::collections::HashMap;

/// Whether the attribute is `inline`.
fn is_mark(attribute: &Attribute) -> bool
    ensures { result ≡ is_inline_mark attribute.now }
{
    attribute.id.as_str() == INLINE
}

/// Whether one of the attributes is `inline`.
fn has_mark(attributes: &[Attribute]) -> bool
    ensures { result ≡ list_any is_inline_mark attributes.now }
{
    for attribute in attributes {
        if is_mark(attribute) {
            return true;
        }
    }
    false
}

/// Whether the nonterminal is marked `inline`.
pub(crate) fn is_marked(rule: &NonterminalData) -> bool
    ensures { result ≡ is_marked_inline rule.now }
{
    has_mark(rule.attributes.as_slice())
}

/// Whether the grammar has a nonterminal of this name that is marked `inline`.
pub(crate) fn is_inlined(grammar: &Grammar, name: &NonterminalString) -> bool
    ensures { result ≡ is_inlined_name grammar.now.nonterminals name.now.0 }
{
    match grammar.nonterminals.get(name) {
        None => false,
        Some(rule) => is_marked(rule),
    }
}

/// One name more in the set.
pub(crate) fn add_name<'g>(
    name: &'g NonterminalString,
    names: &mut HashMap<&'g str, ()>,
) -> Result<(), AllocError>
    ensures { OnOk result ((n : Text) → knows names.new n ≡ (knows names.old n || bytes_eq n name.now.0)) }
{
    names.insert(name.0.as_str(), ())?;
    Ok(())
}

/// Whether the name is in the set.
pub(crate) fn has_name(names: &HashMap<&str, ()>, name: &NonterminalString) -> bool
    ensures { result ≡ knows names.now name.now.0 }
{
    names.contains_key(name.0.as_str())
}
