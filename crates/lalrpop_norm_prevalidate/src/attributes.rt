//! Attributes that may not stand where they do.
#![tactic(auto, using(crate::proofs::FirstLemmas::first_of_both))]

ghost use Rattle.std.specs.Prelude.{◌≡◌, ◌&&◌, ◌||◌, not, filter, flat_map, map, option_map};
ghost use Rattle.std.specs.Str.{bytes_eq};
ghost use Rattle.lalrpop_grammar.specs.WrittenGrammar.{rules_of};
ghost use Rattle.lalrpop_grammar.specs.Views.{attribute_view, attrs, alternative_view, nonterminal_view, item_view};
ghost use Rattle.lalrpop_norm_prevalidate.specs.Firsts.{first_of};
ghost use Rattle.lalrpop_norm_prevalidate.specs.Attributes.{
  is_predicate as predicate_shape,
  is_one_predicate as one_predicate_shape,
  are_predicates as predicates_shape,
  is_name_alone as word_shape,
  is_setting as setting_shape,
  is_one_setting as one_setting_shape,
  sets as sets_shape,
  fits_cfg as cfg_shape,
  fits_grammar as grammar_shape,
  fits_rule as rule_shape,
  fits_alternative as alternative_shape,
  unknown_on_alternative,
  unknown_on_rule,
  unknown_attributes,
};

use lalrpop_grammar::{Alternative, Attribute, AttributeArg, Grammar, NonterminalData};

/// Whether it has the shape of a predicate of `cfg`.
#[cycle(predicates)]
fn is_predicate(attribute: &Attribute) -> bool
    ensures { result ≡ predicate_shape (attribute_view attribute.now) }
{
    match &attribute.arg {
        AttributeArg::Empty => false,
        AttributeArg::Equal(_) => attribute.id.as_str() == "feature",
        AttributeArg::Paren(parts) => {
            if attribute.id.as_str() == "not" {
                is_one_predicate(parts.as_slice())
            } else if attribute.id.as_str() == "all" {
                are_predicates(parts.as_slice())
            } else if attribute.id.as_str() == "any" {
                are_predicates(parts.as_slice())
            } else {
                false
            }
        }
    }
}

#[cycle(predicates)]
fn is_one_predicate(parts: &[Attribute]) -> bool
    ensures { result ≡ one_predicate_shape (attrs (map attribute_view parts.now)) }
{
    match parts {
        [] => false,
        [part] => is_predicate(part),
        [_, _, ..] => false,
    }
}

#[cycle(predicates)]
fn are_predicates(parts: &[Attribute]) -> bool
    ensures { result ≡ predicates_shape (attrs (map attribute_view parts.now)) }
{
    for part in parts {
        if !is_predicate(part) {
            return false;
        }
    }
    true
}

/// Whether it is this name alone.
fn is_name_alone(id: &str, attribute: &Attribute) -> bool
    ensures { result ≡ word_shape id.now (attribute_view attribute.now) }
{
    match &attribute.arg {
        AttributeArg::Empty => attribute.id.as_str() == id,
        AttributeArg::Paren(_) => false,
        AttributeArg::Equal(_) => false,
    }
}

/// Whether it is `key = ".."`.
fn is_setting(key: &str, attribute: &Attribute) -> bool
    ensures { result ≡ setting_shape key.now (attribute_view attribute.now) }
{
    match &attribute.arg {
        AttributeArg::Equal(_) => attribute.id.as_str() == key,
        AttributeArg::Empty => false,
        AttributeArg::Paren(_) => false,
    }
}

fn is_one_setting(key: &str, parts: &[Attribute]) -> bool
    ensures { result ≡ one_setting_shape key.now (attrs (map attribute_view parts.now)) }
{
    match parts {
        [] => false,
        [part] => is_setting(key, part),
        [_, _, ..] => false,
    }
}

/// Whether it is `id(key = "..")`.
fn sets(id: &str, key: &str, attribute: &Attribute) -> bool
    ensures { result ≡ sets_shape id.now key.now (attribute_view attribute.now) }
{
    match &attribute.arg {
        AttributeArg::Paren(parts) => {
            attribute.id.as_str() == id && is_one_setting(key, parts.as_slice())
        }
        AttributeArg::Empty => false,
        AttributeArg::Equal(_) => false,
    }
}

/// Whether it is `cfg(..)` with one predicate.
fn fits_cfg(attribute: &Attribute) -> bool
    ensures { result ≡ cfg_shape (attribute_view attribute.now) }
{
    match &attribute.arg {
        AttributeArg::Paren(parts) => {
            attribute.id.as_str() == "cfg" && is_one_predicate(parts.as_slice())
        }
        AttributeArg::Empty => false,
        AttributeArg::Equal(_) => false,
    }
}

fn fits_grammar(attribute: &Attribute) -> bool
    ensures { result ≡ grammar_shape (attribute_view attribute.now) }
{
    is_name_alone("LALR", attribute)
        || is_name_alone("table_driven", attribute)
        || is_name_alone("recursive_ascent", attribute)
        || is_name_alone("test_all", attribute)
}

fn fits_rule(attribute: &Attribute) -> bool
    ensures { result ≡ rule_shape (attribute_view attribute.now) }
{
    is_name_alone("inline", attribute) || fits_cfg(attribute)
}

fn fits_alternative(attribute: &Attribute) -> bool
    ensures { result ≡ alternative_shape (attribute_view attribute.now) }
{
    sets("precedence", "level", attribute)
        || sets("assoc", "side", attribute)
        || fits_cfg(attribute)
}

/// The first attribute of a grammar that may not stand there.
fn unknown_of_grammar(attributes: &[Attribute]) -> Option<&Attribute>
    ensures { option_map (λ a. attribute_view a.now) result
        ≡ first_of (filter (λ x. not (grammar_shape x)) (map attribute_view attributes.now)) }
{
    for attribute in attributes {
        if !fits_grammar(attribute) {
            return Some(attribute);
        }
    }
    None
}

/// The first attribute of a rule that may not stand there.
fn unknown_of_rule(attributes: &[Attribute]) -> Option<&Attribute>
    ensures { option_map (λ a. attribute_view a.now) result
        ≡ first_of (filter (λ x. not (rule_shape x)) (map attribute_view attributes.now)) }
{
    for attribute in attributes {
        if !fits_rule(attribute) {
            return Some(attribute);
        }
    }
    None
}

/// The first attribute of an alternative that may not stand there.
fn unknown_of_alternative(attributes: &[Attribute]) -> Option<&Attribute>
    ensures { option_map (λ a. attribute_view a.now) result
        ≡ first_of (filter (λ x. not (alternative_shape x)) (map attribute_view attributes.now)) }
{
    for attribute in attributes {
        if !fits_alternative(attribute) {
            return Some(attribute);
        }
    }
    None
}

fn unknown_in_alternatives(alternatives: &[Alternative]) -> Option<&Attribute>
    ensures { option_map (λ a. attribute_view a.now) result
        ≡ first_of (flat_map unknown_on_alternative (map alternative_view alternatives.now)) }
{
    for alternative in alternatives {
        if let Some(attribute) = unknown_of_alternative(alternative.attributes.as_slice()) {
            return Some(attribute);
        }
    }
    None
}

fn unknown_in_rule(rule: &NonterminalData) -> Option<&Attribute>
    ensures { option_map (λ a. attribute_view a.now) result
        ≡ first_of (unknown_on_rule (nonterminal_view rule.now)) }
{
    if let Some(attribute) = unknown_of_rule(rule.attributes.as_slice()) {
        return Some(attribute);
    }
    unknown_in_alternatives(rule.alternatives.as_slice())
}

fn unknown_in_rules(grammar: &Grammar) -> Option<&Attribute>
    ensures { option_map (λ a. attribute_view a.now) result
        ≡ first_of (flat_map unknown_on_rule (rules_of (map item_view grammar.now.items))) }
{
    for rule in grammar.rules() {
        if let Some(attribute) = unknown_in_rule(rule) {
            return Some(attribute);
        }
    }
    None
}

/// The first attribute, in reading order, that may not stand where it does, or has another shape than it has there.
pub(crate) fn unknown_attribute(grammar: &Grammar) -> Option<&Attribute>
    ensures { option_map (λ a. attribute_view a.now) result
        ≡ first_of (unknown_attributes (map attribute_view grammar.now.attributes) (map item_view grammar.now.items)) }
{
    if let Some(attribute) = unknown_of_grammar(grammar.attributes.as_slice()) {
        return Some(attribute);
    }
    unknown_in_rules(grammar)
}
