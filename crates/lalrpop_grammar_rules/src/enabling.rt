//! Which rules and alternatives are enabled: those whose `cfg` attributes all hold under the features.

ghost use Rattle.std.specs.Prelude.{◌≡◌, ◌&&◌, ◌||◌, map};
ghost use Rattle.std.specs.Str.{bytes_eq};
ghost use Rattle.lalrpop_grammar_language.specs.Enabled.{has_text, both, predicate as predicate_of, only_one, every_one, some_one, is_active, attr_holds, has_attr};
ghost use Rattle.lalrpop_grammar.specs.WrittenGrammar.{attr_id};
ghost use Rattle.lalrpop_grammar.specs.Views.{attribute_view, attrs};

use lalrpop_grammar::{Atom, Attribute, AttributeArg};

fn is_feature(text: &Atom, features: &[Atom]) -> bool
    ensures { result ≡ has_text text.now features.now }
{
    features
        .iter()
        .any(|feature| text.as_str() == feature.as_str())
}

/// Whether a predicate holds, where it has the shape of one.
#[cycle(cfg)]
fn value_of(features: &[Atom], predicate: &Attribute) -> Option<bool>
    ensures { result ≡ predicate_of features.now (attribute_view predicate.now) }
{
    match &predicate.arg {
        AttributeArg::Empty => None,
        AttributeArg::Equal(text) => {
            if predicate.id.as_str() == "feature" {
                Some(is_feature(text, features))
            } else {
                None
            }
        }
        AttributeArg::Paren(parts) => {
            if predicate.id.as_str() == "not" {
                match value_of_only(features, parts.as_slice()) {
                    Some(holds) => Some(!holds),
                    None => None,
                }
            } else if predicate.id.as_str() == "all" {
                value_of_all(features, parts.as_slice())
            } else if predicate.id.as_str() == "any" {
                value_of_any(features, parts.as_slice())
            } else {
                None
            }
        }
    }
}

/// The value of the one predicate, where there is one.
#[cycle(cfg)]
fn value_of_only(features: &[Atom], parts: &[Attribute]) -> Option<bool>
    ensures { result ≡ only_one features.now (attrs (map attribute_view parts.now)) }
{
    match parts {
        [] => None,
        [only] => value_of(features, only),
        [_, _, ..] => None,
    }
}

/// Whether each of the predicates holds.
#[cycle(cfg)]
fn value_of_all(features: &[Atom], parts: &[Attribute]) -> Option<bool>
    ensures { result ≡ every_one features.now (attrs (map attribute_view parts.now)) }
{
    let mut holds = Some(true);
    for part in parts {
        holds = both_hold(holds, value_of(features, part));
    }
    holds
}

/// Whether one of the predicates holds.
#[cycle(cfg)]
fn value_of_any(features: &[Atom], parts: &[Attribute]) -> Option<bool>
    ensures { result ≡ some_one features.now (attrs (map attribute_view parts.now)) }
{
    let mut holds = Some(false);
    for part in parts {
        holds = one_holds(holds, value_of(features, part));
    }
    holds
}

fn both_hold(a: Option<bool>, b: Option<bool>) -> Option<bool>
    ensures { result ≡ both (λ x y. x && y) a b }
{
    match (a, b) {
        (Some(x), Some(y)) => Some(x && y),
        _ => None,
    }
}

fn one_holds(a: Option<bool>, b: Option<bool>) -> Option<bool>
    ensures { result ≡ both (λ x y. x || y) a b }
{
    match (a, b) {
        (Some(x), Some(y)) => Some(x || y),
        _ => None,
    }
}

/// Whether the attributes leave what they stand on enabled.
pub fn cfg_active(features: &[Atom], attributes: &[Attribute]) -> bool
    ensures { result ≡ is_active features.now (map attribute_view attributes.now) }
{
    for attribute in attributes {
        if !allows(features, attribute) {
            return false;
        }
    }
    true
}

fn allows(features: &[Atom], attribute: &Attribute) -> bool
    ensures { result ≡ attr_holds features.now (attribute_view attribute.now) }
{
    if attribute.id.as_str() != "cfg" {
        return true;
    }
    match &attribute.arg {
        AttributeArg::Empty => false,
        AttributeArg::Equal(_) => false,
        AttributeArg::Paren(parts) => match value_of_only(features, parts.as_slice()) {
            Some(holds) => holds,
            None => false,
        },
    }
}

/// Whether one of the attributes has that name.
pub fn has_attribute(id: &str, attributes: &[Attribute]) -> bool
    ensures { result ≡ has_attr id.now (map attribute_view attributes.now) }
{
    for attribute in attributes {
        if is_named(attribute, id) {
            return true;
        }
    }
    false
}

/// Whether the attribute has that name.
pub fn is_named(attribute: &Attribute, id: &str) -> bool
    ensures { result ≡ bytes_eq (attr_id (attribute_view attribute.now)) id.now }
{
    match &attribute.arg {
        AttributeArg::Empty => attribute.id.as_str() == id,
        AttributeArg::Paren(_) => attribute.id.as_str() == id,
        AttributeArg::Equal(_) => attribute.id.as_str() == id,
    }
}
