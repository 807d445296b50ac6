//! What may be wrong with the levels of rules.
#![tactic(auto, using(crate::proofs::FirstFaultLemmas::first_of_both))]

ghost use Rattle.std.specs.Prelude.{◌≡◌, None, flat_map, map, option_map};
ghost use Rattle.std.specs.List.{list_any};
ghost use Rattle.lalrpop_grammar_symbols.specs.Views.{span_view};
ghost use Rattle.lalrpop_grammar.specs.Views.{alternative_view, attribute_view, attrs, grammar_view, nonterminal_view};
ghost use Rattle.lalrpop_grammar_language.specs.Levels.{has_levels};
ghost use Rattle.lalrpop_grammar_rules.specs.Ranks.{rank_view};
ghost use Rattle.lalrpop_norm_theory.specs.Between.{rule_between};
ghost use Rattle.lalrpop_norm_theory.specs.LevelFaults.{
  value_place as place_of_value,
  faults_of_attr,
  faults_of_first,
  level_faults_in_rule,
  level_faults,
};
ghost use Rattle.lalrpop_norm_precedence.specs.LevelErrors.{error_view, first_fault};
ghost use Rattle.lalrpop_norm_precedence.specs.LevelSearch.{
  says_level,
  place_of_text,
  place_of_only,
  level_fault_of,
  side_fault_of,
  smaller_level,
  least_from,
  faults_of_side,
  faults_at,
  faults_from,
};

use lalrpop_grammar::types::{Attribute, AttributeArg};
use lalrpop_grammar::{Alternative, Grammar, NonterminalData};
use lalrpop_grammar_repr::{NormError, NormErrorKind};
use lalrpop_grammar_rules::{
    ASSOC_ATTR, LVL_ARG, PREC_ATTR, Rank, SIDE_ARG, first_named, has_attribute, is_named, level_in,
    rank_after, side_in,
};
use lalrpop_grammar_symbols::Span;

/// Whether the rule has levels: one of its alternatives says one.
pub fn has_prec_attr(rule: &NonterminalData) -> bool
    ensures { result ≡ has_levels (rule_between (nonterminal_view rule.now)) }
{
    one_says_level(rule.alternatives.as_slice())
}

/// Whether one of the alternatives says a level.
fn one_says_level(alternatives: &[Alternative]) -> bool
    ensures { result ≡ list_any says_level (map alternative_view alternatives.now) }
{
    for alternative in alternatives {
        if has_attribute(PREC_ATTR, alternative.attributes.as_slice()) {
            return true;
        }
    }
    false
}

/// Where the attribute says a text: at its one part, where it has the form `id(key = "text")`.
#[tactic(auto, using(crate::proofs::ValuePlaceLemmas::place_in_parts))]
fn value_place(key: &str, attribute: &Attribute) -> Span
    ensures { span_view result ≡ place_of_value key.now (attribute_view attribute.now) }
{
    match &attribute.arg {
        AttributeArg::Paren(parts) => only_place(key, parts.as_slice(), attribute.span),
        AttributeArg::Empty => attribute.span,
        AttributeArg::Equal(_) => attribute.span,
    }
}

/// Where the one part of the form `key = "text"` stands, else the other place.
fn only_place(key: &str, parts: &[Attribute], other: Span) -> Span
    ensures { span_view result ≡ place_of_only key.now (attrs (map attribute_view parts.now)) (span_view other) }
{
    match parts {
        [] => other,
        [only] => text_place(key, only, other),
        [_, _, ..] => other,
    }
}

/// Where the attribute stands, if it has the form `key = "text"`, else the other place.
fn text_place(key: &str, attribute: &Attribute, other: Span) -> Span
    ensures { span_view result ≡ place_of_text key.now (attribute_view attribute.now) (span_view other) }
{
    match &attribute.arg {
        AttributeArg::Equal(_) => {
            if key == attribute.id.as_str() {
                attribute.span
            } else {
                other
            }
        }
        AttributeArg::Empty => other,
        AttributeArg::Paren(_) => other,
    }
}

/// What is wrong with the level or the side that the attribute says.
fn fault_of_attribute(attribute: &Attribute) -> Option<NormError>
    ensures { option_map error_view result ≡ first_fault (faults_of_attr (attribute_view attribute.now)) }
{
    if is_named(attribute, PREC_ATTR) {
        return fault_of_level(attribute);
    }
    if is_named(attribute, ASSOC_ATTR) {
        return fault_of_side(attribute);
    }
    None
}

fn fault_of_level(attribute: &Attribute) -> Option<NormError>
    ensures { option_map error_view result ≡ first_fault (level_fault_of (attribute_view attribute.now)) }
{
    match level_in(attribute) {
        Some(_) => None,
        None => Some(NormError {
            kind: NormErrorKind::LevelIsNoNumber,
            span: value_place(LVL_ARG, attribute),
        }),
    }
}

fn fault_of_side(attribute: &Attribute) -> Option<NormError>
    ensures { option_map error_view result ≡ first_fault (side_fault_of (attribute_view attribute.now)) }
{
    match side_in(attribute) {
        Some(_) => None,
        None => Some(NormError {
            kind: NormErrorKind::UnknownSide,
            span: value_place(SIDE_ARG, attribute),
        }),
    }
}

/// What is wrong with the first of the attributes that says a level or a side wrongly.
fn fault_in_attributes(attributes: &[Attribute]) -> Option<NormError>
    ensures { option_map error_view result
        ≡ first_fault (flat_map faults_of_attr (map attribute_view attributes.now)) }
{
    for attribute in attributes {
        if let Some(error) = fault_of_attribute(attribute) {
            return Some(error);
        }
    }
    None
}

/// The smaller of two levels, where there are two.
fn smaller(least: Option<u32>, rank: Option<Rank>) -> Option<u32>
    ensures { result ≡ smaller_level least (option_map rank_view rank) }
{
    match rank {
        None => least,
        Some(rank) => match least {
            None => Some(rank.level),
            Some(level) => {
                if level < rank.level {
                    Some(level)
                } else {
                    Some(rank.level)
                }
            }
        },
    }
}

/// The tightest level of the alternatives.
fn tightest(alternatives: &[Alternative]) -> Option<u32>
    ensures { result ≡ least_from None None (map alternative_view alternatives.now) }
{
    let mut last = None;
    let mut least = None;
    for alternative in alternatives {
        last = rank_after(last, alternative.attributes.as_slice());
        least = smaller(least, last);
    }
    least
}

/// What is wrong with the side that an alternative of that rank says: that it says one on the tightest level.
fn fault_of_tightest_side(
    tightest: Option<u32>,
    rank: Option<Rank>,
    attributes: &[Attribute],
) -> Option<NormError>
    ensures { option_map error_view result
        ≡ first_fault (faults_of_side tightest (option_map rank_view rank) (map attribute_view attributes.now)) }
{
    let Some(rank) = rank else {
        return None;
    };
    if let Some(least) = tightest {
        if least < rank.level {
            return None;
        }
    }
    match first_named(ASSOC_ATTR, attributes) {
        Some(attribute) => Some(NormError {
            kind: NormErrorKind::SideOnTightestLevel,
            span: value_place(SIDE_ARG, attribute),
        }),
        None => None,
    }
}

/// What is wrong with an alternative of that rank, in a rule with that tightest level.
fn fault_of_alternative(
    tightest: Option<u32>,
    rank: Option<Rank>,
    alternative: &Alternative,
) -> Option<NormError>
    ensures { option_map error_view result
        ≡ first_fault (faults_at tightest (option_map rank_view rank) (alternative_view alternative.now)) }
{
    let attributes = alternative.attributes.as_slice();
    if let Some(error) = fault_in_attributes(attributes) {
        return Some(error);
    }
    fault_of_tightest_side(tightest, rank, attributes)
}

/// What is wrong with the first faulty one of the alternatives.
fn fault_in_alternatives(tightest: Option<u32>, alternatives: &[Alternative]) -> Option<NormError>
    ensures { option_map error_view result
        ≡ first_fault (faults_from tightest None (map alternative_view alternatives.now)) }
{
    let mut last = None;
    for alternative in alternatives {
        last = rank_after(last, alternative.attributes.as_slice());
        if let Some(error) = fault_of_alternative(tightest, last, alternative) {
            return Some(error);
        }
    }
    None
}

/// What is wrong with the first alternative of a rule with levels: that it has none.
fn fault_of_first(alternatives: &[Alternative]) -> Option<NormError>
    ensures { option_map error_view result ≡ first_fault (faults_of_first (map alternative_view alternatives.now)) }
{
    let Some((first, _)) = alternatives.split_first() else {
        return None;
    };
    if has_attribute(PREC_ATTR, first.attributes.as_slice()) {
        return None;
    }
    Some(NormError {
        kind: NormErrorKind::FirstWithoutLevel,
        span: first.span,
    })
}

/// What is wrong with the levels of the rule.
#[tactic(auto, using(crate::proofs::FirstFaultLemmas::first_of_both, crate::proofs::RankedLemmas::faults_of_leveled, crate::proofs::RankedLemmas::faults_of_flat))]
fn fault_of_rule(rule: &NonterminalData) -> Option<NormError>
    ensures { option_map error_view result ≡ first_fault (level_faults_in_rule (nonterminal_view rule.now)) }
{
    if !has_prec_attr(rule) {
        return None;
    }
    let alternatives = rule.alternatives.as_slice();
    if let Some(error) = fault_of_first(alternatives) {
        return Some(error);
    }
    fault_in_alternatives(tightest(alternatives), alternatives)
}

/// What is wrong with the levels of a grammar without what is disabled: the first of `level_faults`. It takes no memory.
pub fn level_fault(grammar: &Grammar) -> Option<NormError>
    ensures { option_map error_view result ≡ first_fault (level_faults (grammar_view grammar.now)) }
{
    for rule in grammar.rules() {
        if let Some(error) = fault_of_rule(rule) {
            return Some(error);
        }
    }
    None
}
