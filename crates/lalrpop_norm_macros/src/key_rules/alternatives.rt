//! The alternatives of a rule in an instance: those whose conditions hold for the arguments, with keys by their names.

ghost use Rattle.std.specs.Prelude.{◌≡◌, ◌↔◌, ℕ, Bool, IfErr, IfOk, IsTrue, OnOk, Option, map, option_map};
ghost use Rattle.lalrpop_grammar_symbols.specs.Symbols.{Text};
ghost use Rattle.lalrpop_grammar.specs.Views.{alternative_view, condition_view, origin_view};
ghost use Rattle.lalrpop_grammar_language.specs.Expansion.{origin_with};
ghost use Rattle.lalrpop_grammar_rules.specs.RuleTable.{rules_with};
ghost use Rattle.lalrpop_grammar_rules.specs.Scopes.{binding_view};
ghost use Rattle.lalrpop_grammar_rules.specs.Views.{closed_view};
ghost use Rattle.lalrpop_norm_keys.specs.MacroFaults.{TellsOfAlternative};
ghost use Rattle.lalrpop_norm_macros.specs.KeyNaming.{AreSymbolsFor};
ghost use Rattle.lalrpop_norm_macros.specs.KeyInstances.{
  BecomesIn,
  HoldsIn,
  IsReady,
  TellsOfOneIn,
  instance_binding,
  instance_rule_view,
};
ghost use Rattle.lalrpop_norm_macros.specs.InstanceRules.{AreInstancesBy, IsInstanceBy, PutsInstance, flat_side};
ghost use Rattle.lalrpop_norm_macros.specs.WrittenRules.{arguments_view};

use crate::key_symbols::{KeyNames, written_side};
use lalrpop_grammar::{ActionKind, Alternative, Condition, Origin};
use lalrpop_grammar_repr::NormFault;
use lalrpop_grammar_rules::closed::{Binding, ClosedSymbol, Finder, holds, right_side};
use lalrpop_grammar_rules::{Choice, EnabledRule, Rules};
use lalrpop_grammar_symbols::{List, Symbol, clone_symbols};
use lalrpop_norm_keys::told_fault;
use std::alloc::{AllocError, Global};

/// An instance of a macro, or a rule without parameters.
#[derive(Clone, Copy)]
pub(crate) struct Instance<'i, 'g> {
    /// The table of rules.
    pub(crate) rules: &'i Rules<'g>,
    /// The rule.
    pub(crate) rule: &'i EnabledRule<'g>,
    /// What its parameters stand for.
    pub(crate) args: &'i [ClosedSymbol],
    /// The same as it is written.
    pub(crate) arguments: &'i [Symbol],
    /// The keys by their names.
    pub(crate) names: &'i KeyNames<'i>,
}

/// What the instance's parameters are bound to.
pub(crate) fn binding_in<'i>(instance: &Instance<'i, '_>) -> Binding<'i>
    ensures { binding_view result ≡ instance_binding instance.now }
{
    Binding {
        parameters: instance.rule.written.args.as_slice(),
        args: instance.args,
    }
}

/// The closed symbols of the alternative.
pub(crate) fn closed_side(
    alloc: Global,
    instance: &Instance<'_, '_>,
    alternative: &Alternative,
) -> Result<List<ClosedSymbol>, AllocError>
    requires { IsReady instance.now }
    ensures { IfOk result (λ side. (finds : Text → Text → Option Bool) → map closed_view side
        ≡ flat_side (rules_with finds instance.now.rules.now) (instance_rule_view instance.now) (instance_binding instance.now)
        (alternative_view alternative.now)) }
{
    let choice = Choice {
        alternative,
        rank: None,
        tighter: None,
    };
    right_side(alloc, instance.rules, instance.rule, &choice, instance.args)
}

/// Whether the condition holds in the instance; without one, it does.
fn is_held<F: Finder>(
    alloc: Global,
    finder: &F,
    instance: &Instance<'_, '_>,
    condition: &Option<Condition>,
) -> Result<bool, NormFault>
    ensures exact { IfOk result (λ yes. IsTrue yes
        ↔ HoldsIn instance.now (F.finds finder.now) (option_map condition_view condition.now)) }
    ensures fault { IfErr result (TellsOfAlternative (F.finds finder.now) (F.too_deep finder.now)
        (instance_binding instance.now) (option_map condition_view condition.now)) }
{
    let Some(found) = condition else {
        return Ok(true);
    };
    match holds(
        alloc,
        finder,
        instance.rules,
        binding_in(instance),
        condition,
    ) {
        Ok(yes) => Ok(yes),
        Err(fault) => Err(told_fault(fault, found.span)),
    }
}

/// The origin with the arguments, where it is an alternative that has none yet.
fn instance_origin(
    alloc: Global,
    arguments: &[Symbol],
    origin: &Origin,
) -> Result<Origin, AllocError>
    ensures { IfOk result (λ made. origin_view made
        ≡ origin_with (arguments_view arguments.now) (origin_view origin.now)) }
{
    match origin {
        Origin::Alternative { rule, args, place } => {
            if args.is_empty() {
                let rule = rule.try_clone()?;
                let place = *place;
                Ok(Origin::Alternative {
                    rule,
                    args: clone_symbols(alloc, arguments)?,
                    place,
                })
            } else {
                origin.try_clone(alloc)
            }
        }
        Origin::Start
        | Origin::PassDown
        | Origin::PlusOne
        | Origin::PlusMore
        | Origin::StarNone
        | Origin::StarSome
        | Origin::OptNone
        | Origin::OptSome
        | Origin::Group
        | Origin::Look => origin.try_clone(alloc),
    }
}

fn clone_action(action: &Option<ActionKind>) -> Result<Option<ActionKind>, AllocError>
    ensures { IfOk result (λ copy. copy ≡ action.now) }
{
    match action {
        None => Ok(None),
        Some(action) => Ok(Some(action.try_clone()?)),
    }
}

/// The alternative as it stands in the instance, for these closed symbols.
fn instance_alternative(
    alloc: Global,
    instance: &Instance<'_, '_>,
    alternative: &Alternative,
    side: &[ClosedSymbol],
) -> Result<Alternative, AllocError>
    requires { IsReady instance.now }
    ensures { IfOk result (λ made. IsInstanceBy (AreSymbolsFor instance.now.names.now)
        (arguments_view instance.now.arguments.now) (map closed_view side.now) (alternative_view alternative.now)
        (alternative_view made)) }
{
    let span = alternative.span;
    let expr = written_side(alloc, instance.names, span, side)?;
    let action = clone_action(&alternative.action)?;
    let origin = instance_origin(alloc, instance.arguments, &alternative.origin)?;
    Ok(Alternative {
        span,
        expr,
        condition: None,
        action,
        attributes: List::new(alloc),
        origin,
    })
}

/// The alternative as it stands in the instance.
fn held_alternative(
    alloc: Global,
    instance: &Instance<'_, '_>,
    alternative: &Alternative,
) -> Result<Alternative, AllocError>
    requires { IsReady instance.now }
    ensures { IfOk result (λ made. (finds : Text → Text → Option Bool)
        → BecomesIn instance.now finds (alternative_view alternative.now) (alternative_view made)) }
{
    let side = closed_side(alloc, instance, alternative)?;
    instance_alternative(alloc, instance, alternative, side.as_slice())
}

/// Puts the alternative behind the others as it stands in the instance, where its condition holds.
fn put_alternative<F: Finder>(
    alloc: Global,
    finder: &F,
    instance: &Instance<'_, '_>,
    alternative: &Alternative,
    made: &mut List<Alternative>,
) -> Result<(), NormFault>
    requires { IsReady instance.now }
    ensures put { OnOk result (PutsInstance (HoldsIn instance.now (F.finds finder.now))
        (BecomesIn instance.now (F.finds finder.now)) (alternative_view alternative.now)
        (map alternative_view made.old) (map alternative_view made.new)) }
    ensures fault { IfErr result (TellsOfAlternative (F.finds finder.now) (F.too_deep finder.now)
        (instance_binding instance.now) (option_map condition_view alternative.now.condition)) }
{
    if !is_held(alloc, finder, instance, &alternative.condition)? {
        return Ok(());
    }
    made.push(held_alternative(alloc, instance, alternative)?)?;
    Ok(())
}

/// The alternatives as they stand in the instance: those whose conditions hold, in order.
pub(crate) fn instance_alternatives<F: Finder>(
    alloc: Global,
    finder: &F,
    instance: &Instance<'_, '_>,
    alternatives: &[Alternative],
) -> Result<List<Alternative>, NormFault>
    requires { IsReady instance.now }
    ensures made { IfOk result (λ made. AreInstancesBy (HoldsIn instance.now (F.finds finder.now))
        (BecomesIn instance.now (F.finds finder.now)) (map alternative_view alternatives.now) (map alternative_view made)) }
    ensures fault { IfErr result (TellsOfOneIn (F.finds finder.now) (F.too_deep finder.now)
        (instance_binding instance.now) (map alternative_view alternatives.now)) }
{
    let mut made = List::new(alloc);
    for alternative in alternatives {
        put_alternative(alloc, finder, instance, alternative, &mut made)?;
    }
    Ok(made)
}
