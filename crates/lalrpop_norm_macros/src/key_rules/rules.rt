//! The rules of keys, one for each.

ghost use Rattle.std.specs.Prelude.{◌≡◌, IfErr, IfOk, map};
ghost use Rattle.lalrpop_grammar_symbols.specs.Views.{span_view};
ghost use Rattle.lalrpop_grammar.specs.Views.{is_public, nonterminal_view};
ghost use Rattle.lalrpop_grammar_language.specs.Admitting.{argument_list};
ghost use Rattle.lalrpop_grammar_rules.specs.Details.{enabled_rule_view};
ghost use Rattle.lalrpop_grammar_rules.specs.RuleTable.{IsKept, rules_with};
ghost use Rattle.lalrpop_grammar_rules.specs.Views.{binding_of, closed_view, closeds};
ghost use Rattle.lalrpop_norm_macros.specs.InstanceRules.{stays_public};
ghost use Rattle.lalrpop_norm_macros.specs.RulesUnder.{IsInstanceRuleUnder};
ghost use Rattle.lalrpop_norm_macros.specs.KeyInstances.{IsReady, TellsOfOneIn, instance_binding, instance_rule_view};
ghost use Rattle.lalrpop_norm_macros.specs.WrittenKeys.{AreReady, IsCallRule, IsRuleOfKey, TellsOfCalledRule, TellsOfKey};
ghost use Rattle.lalrpop_norm_macros.specs.WrittenRules.{arguments_view, spelled_in};

use crate::key_rules::added::{Added, RuleHead, empty_rule, part_rule};
use crate::key_rules::alternatives::{Instance, instance_alternatives};
use crate::key_rules::types::put_declaration;
use crate::key_symbols::{KeyNames, WrittenRules, arguments, find_written};
use lalrpop_grammar::types::clone_attributes;
use lalrpop_grammar::{NonterminalData, Visibility};
use lalrpop_grammar_repr::NormFault;
use lalrpop_grammar_rules::closed::{ClosedSymbol, Finder};
use lalrpop_grammar_rules::{EnabledRule, Rules};
use lalrpop_grammar_symbols::{Atom, List, NonterminalString, Span};
use std::alloc::{AllocError, Global};

/// What the rules of keys are written by.
#[derive(Clone, Copy)]
pub(crate) struct KeyRules<'k, 'g> {
    /// The table of rules.
    pub(crate) rules: &'k Rules<'g>,
    /// The rules as they are written.
    pub(crate) written: &'k WrittenRules<'g>,
    /// The keys by their names.
    pub(crate) names: &'k KeyNames<'k>,
}

/// Who may use the rule of a call: who may use the rule, where it is called without arguments.
fn visibility_of(args: &[ClosedSymbol], visibility: &Visibility) -> Result<Visibility, AllocError>
    ensures { IfOk result (λ made. is_public made
        ≡ stays_public (closeds (map closed_view args.now)) (is_public visibility.now)) }
{
    match args.split_first() {
        None => visibility.try_clone(),
        Some(_) => Ok(Visibility::Priv),
    }
}

/// The head of the rule of a call of the rule, under that name.
fn rule_head(
    alloc: Global,
    args: &[ClosedSymbol],
    written: &NonterminalData,
    name: &Atom,
) -> Result<RuleHead, AllocError>
    ensures public { IfOk result (λ head. is_public head.visibility
        ≡ stays_public (closeds (map closed_view args.now)) (is_public written.now.visibility)) }
    ensures name { IfOk result (λ head. head.name.0 ≡ name.now) }
    ensures attributes { IfOk result (λ head. head.attributes ≡ written.now.attributes) }
{
    let attributes = clone_attributes(alloc, written.attributes.as_slice())?;
    let name = NonterminalString(name.try_clone()?);
    let visibility = visibility_of(args, &written.visibility)?;
    Ok(RuleHead {
        visibility,
        name,
        attributes,
    })
}

/// The rule in an instance, under that name.
fn instance_rule<F: Finder>(
    alloc: Global,
    finder: &F,
    instance: &Instance<'_, '_>,
    written: &NonterminalData,
    name: &Atom,
) -> Result<NonterminalData, NormFault>
    requires { IsReady instance.now }
    ensures made { IfOk result (λ made. IsInstanceRuleUnder instance.now.names.now
        (rules_with (F.finds finder.now) instance.now.rules.now) (instance_rule_view instance.now)
        (closeds (map closed_view instance.now.args.now)) (instance_binding instance.now)
        (arguments_view instance.now.arguments.now) name.now (nonterminal_view written.now) (nonterminal_view made)) }
    ensures fault { IfErr result (TellsOfOneIn (F.finds finder.now) (F.too_deep finder.now)
        (instance_binding instance.now) (nonterminal_view written.now).alternatives) }
{
    let alternatives = instance_alternatives(
        alloc,
        finder,
        instance,
        written.alternatives.as_slice(),
    )?;
    let RuleHead {
        visibility,
        name,
        attributes,
    } = rule_head(alloc, instance.args, written, name)?;
    let type_decl = put_declaration(alloc, instance, &written.type_decl)?;
    Ok(NonterminalData {
        visibility,
        name,
        attributes,
        span: written.span,
        args: List::new(alloc),
        type_decl,
        alternatives,
    })
}

/// The rule of a call of the rule, under that name.
fn called_rule<F: Finder>(
    alloc: Global,
    finder: &F,
    keys: &KeyRules<'_, '_>,
    rule: &EnabledRule<'_>,
    written: &NonterminalData,
    args: &[ClosedSymbol],
    name: &Atom,
) -> Result<NonterminalData, NormFault>
    requires ready { AreReady keys.now }
    requires kept { IsKept keys.now.rules.now.features.now rule.now }
    ensures made { IfOk result (λ made. IsInstanceRuleUnder keys.now.names.now
        (rules_with (F.finds finder.now) keys.now.rules.now) (enabled_rule_view keys.now.rules.now.features.now rule.now)
        (closeds (map closed_view args.now)) (binding_of rule.now.written.now.args args.now)
        (argument_list (spelled_in keys.now.written.now) (closeds (map closed_view args.now)))
        name.now (nonterminal_view written.now) (nonterminal_view made)) }
    ensures fault { IfErr result (TellsOfOneIn (F.finds finder.now) (F.too_deep finder.now)
        (binding_of rule.now.written.now.args args.now) (nonterminal_view written.now).alternatives) }
{
    let arguments = arguments(alloc, args, keys.written, written.span)?;
    let instance = Instance {
        rules: keys.rules,
        rule,
        args,
        arguments: arguments.as_slice(),
        names: keys.names,
    };
    instance_rule(alloc, finder, &instance, written, name)
}

/// The rule of a call, under that name; one without alternatives, where no rule can be called so.
fn call_rule<F: Finder>(
    alloc: Global,
    finder: &F,
    keys: &KeyRules<'_, '_>,
    called: &Atom,
    args: &[ClosedSymbol],
    name: &Atom,
    added: &Added<'_>,
) -> Result<NonterminalData, NormFault>
    requires { AreReady keys.now }
    ensures made { IfOk result (λ made. IsCallRule keys.now (F.finds finder.now) called.now (closeds (map closed_view args.now))
        name.now (nonterminal_view made)) }
    ensures fault { IfErr result (TellsOfCalledRule keys.now (F.finds finder.now) (F.too_deep finder.now)
        called.now (closeds (map closed_view args.now))) }
{
    match (keys.rules.find(called), find_written(keys.written, called)) {
        (Some(rule), Some(written)) => {
            if written.args.len() == args.len() {
                called_rule(alloc, finder, keys, rule, written, args, name)
            } else {
                Ok(empty_rule(alloc, added, name)?)
            }
        }
        _ => Ok(empty_rule(alloc, added, name)?),
    }
}

/// The rule of the key, under that name and written there.
pub(crate) fn key_rule<F: Finder>(
    alloc: Global,
    finder: &F,
    keys: &KeyRules<'_, '_>,
    key: &ClosedSymbol,
    name: &Atom,
    span: Span,
) -> Result<NonterminalData, NormFault>
    requires { AreReady keys.now }
    ensures made { IfOk result (λ made. IsRuleOfKey keys.now (F.finds finder.now) (closed_view key.now) name.now
        (span_view span) (nonterminal_view made)) }
    ensures fault { IfErr result (TellsOfKey keys.now (F.finds finder.now) (F.too_deep finder.now) (closed_view key.now)) }
{
    let added = Added {
        names: keys.names,
        span,
    };
    match key {
        ClosedSymbol::Call(called, args, _) => {
            call_rule(alloc, finder, keys, called, args.as_slice(), name, &added)
        }
        _ => Ok(part_rule(alloc, &added, name, key)?),
    }
}
