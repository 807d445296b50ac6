//! Rules without a type.

ghost use Rattle.std.specs.Prelude.{◌≡◌, None, IfErr, IfOk, map, option_map, true};
ghost use Rattle.std.specs.List.{find};
ghost use Rattle.lalrpop_grammar.specs.Views.{alternative_view, grammar_view, nonterminal_view, origin_view};
ghost use Rattle.lalrpop_grammar.specs.WrittenGrammar.{rules_of};
ghost use Rattle.lalrpop_norm_tyinfer.specs.TypesByTable.{known_names};
ghost use Rattle.lalrpop_norm_tyinfer.specs.Equations.{AllAgree, type_equations};
ghost use Rattle.lalrpop_norm_tyinfer.specs.TypeFaults.{IsTypeFault, is_part_choice as part_choice, is_part_origin as part_origin};
ghost use Rattle.lalrpop_norm_tyinfer.specs.Searching.{TellsUntyped, is_untyped_rule};
ghost use Rattle.lalrpop_norm_tyinfer.specs.ProgramViews.{IsRightTable, rule_types};

use crate::ground::RuleTypes;
use lalrpop_grammar::{Alternative, Grammar, NonterminalData, Origin};
use lalrpop_grammar_repr::{NormError, NormErrorKind, NormFault};

/// Whether the choice is one of a repeat or a group.
fn is_part_origin(origin: &Origin) -> bool
    ensures { result ≡ part_origin (origin_view origin.now) }
{
    match origin {
        Origin::PlusOne | Origin::PlusMore => true,
        Origin::StarNone | Origin::StarSome => true,
        Origin::OptNone | Origin::OptSome => true,
        Origin::Group => true,
        Origin::Start | Origin::PassDown | Origin::Look => false,
        Origin::Alternative { .. } => false,
    }
}

/// Whether these are the alternatives of a repeat or a group.
fn is_part_choice(alternatives: &[Alternative]) -> bool
    ensures { result ≡ part_choice (map alternative_view alternatives.now) }
{
    match alternatives.split_first() {
        None => false,
        Some((alternative, _)) => is_part_origin(&alternative.origin),
    }
}

/// Whether the rule has no type by the table, and is none of a repeat or a group but where those count, too.
fn is_untyped(rule: &NonterminalData, table: &RuleTypes, parts: bool) -> bool
    ensures { result ≡ is_untyped_rule (rule_types table.now) parts (nonterminal_view rule.now) }
{
    table.get(&rule.name).is_none() && (parts || !is_part_choice(rule.alternatives.as_slice()))
}

/// The first such rule.
fn first_untyped<'g>(
    grammar: &'g Grammar,
    table: &RuleTypes,
    parts: bool,
) -> Option<&'g NonterminalData>
    ensures { option_map (λ r. nonterminal_view r.now) result
        ≡ find (is_untyped_rule (rule_types table.now) parts) (rules_of (grammar_view grammar.now).items) }
{
    for rule in grammar.rules() {
        if is_untyped(rule, table, parts) {
            return Some(rule);
        }
    }
    None
}

/// The fault that the rule has no type.
fn no_type(rule: &NonterminalData) -> NormFault
    ensures { TellsUntyped (nonterminal_view rule.now) result }
{
    match rule.name.try_clone() {
        Ok(name) => NormFault::Norm(NormError {
            kind: NormErrorKind::NoType(name),
            span: rule.span,
        }),
        Err(_) => NormFault::Memory,
    }
}

/// Sees that each rule has a type by the table, with which all equations agree.
pub(crate) fn check_typed(grammar: &Grammar, table: &RuleTypes) -> Result<(), NormFault>
    requires right { IsRightTable (grammar_view grammar.now) (rule_types table.now) }
    requires agree { AllAgree (known_names (grammar_view grammar.now)) (rule_types table.now)
        (type_equations (grammar_view grammar.now)) }
    ensures typed { IfOk result (λ done.
        find (is_untyped_rule (rule_types table.now) true) (rules_of (grammar_view grammar.now).items) ≡ None) }
    ensures fault { IfErr result (IsTypeFault (grammar_view grammar.now)) }
{
    match first_untyped(grammar, table, false) {
        Some(rule) => Err(no_type(rule)),
        None => match first_untyped(grammar, table, true) {
            Some(rule) => Err(no_type(rule)),
            None => Ok(()),
        },
    }
}
