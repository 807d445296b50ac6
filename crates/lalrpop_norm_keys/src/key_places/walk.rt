//! The keys that are met in rules and instances.

ghost use Rattle.std.specs.Prelude.{◌≡◌, ◌↔◌, ◌∷◌, [], IfErr, IfOk, IsTrue, OnOk, map, option_map};
ghost use Rattle.lalrpop_grammar.specs.WrittenGrammar.{Origin};
ghost use Rattle.lalrpop_grammar.specs.Views.{alternative_view, condition_view};
ghost use Rattle.lalrpop_grammar_language.specs.Conditions.{Holds};
ghost use Rattle.lalrpop_grammar_language.specs.Enabled.{choice_of};
ghost use Rattle.lalrpop_grammar_language.specs.Levels.{levels, ranked_choices};
ghost use Rattle.lalrpop_grammar_rules.specs.Details.{choices_view, enabled_rule_view, tighter_in};
ghost use Rattle.lalrpop_grammar_rules.specs.Ranks.{rank_view};
ghost use Rattle.lalrpop_grammar_rules.specs.RuleTable.{IsKept, IsTable, rules_with};
ghost use Rattle.lalrpop_grammar_rules.specs.Scopes.{binding_view};
ghost use Rattle.lalrpop_grammar_rules.specs.Views.{binding_of, closed_view};
ghost use Rattle.lalrpop_norm_keys.specs.FoundCalls.{TellsOfOneCall};
ghost use Rattle.lalrpop_norm_keys.specs.Instances.{AreTight, TellsOfSome, kept_from};
ghost use Rattle.lalrpop_norm_keys.specs.MacroFaults.{TellsOfAlternative};
ghost use Rattle.lalrpop_norm_keys.specs.GrammarPlaces.{PutsMet, PutsMetInCall, PutsMetInCalls, PutsMetInChoices};
ghost use Rattle.lalrpop_norm_keys.specs.Views.{met_view};

use crate::called::unleveled_call;
use crate::conditions::told_fault;
use crate::key_places::meeting::{MetKey, note_keys_met};
use lalrpop_grammar::Condition;
use lalrpop_grammar_repr::NormFault;
use lalrpop_grammar_rules::closed::{Binding, ClosedSymbol, Finder, holds, right_side};
use lalrpop_grammar_rules::{Choice, EnabledRule, Rules};
use lalrpop_grammar_symbols::List;
use std::alloc::Global;

/// Whether the condition holds for what the parameters are bound to; without one, it does.
fn is_held<F: Finder>(
    alloc: Global,
    finder: &F,
    rules: &Rules<'_>,
    binding: Binding<'_>,
    condition: &Option<Condition>,
) -> Result<bool, NormFault>
    ensures exact { IfOk result (λ yes. IsTrue yes
        ↔ Holds (rules_with (F.finds finder.now) rules.now) (binding_view binding.entry)
        (option_map condition_view condition.now)) }
    ensures fault { IfErr result (TellsOfAlternative (F.finds finder.now) (F.too_deep finder.now)
        (binding_view binding.entry) (option_map condition_view condition.now)) }
{
    let Some(found) = condition else {
        return Ok(true);
    };
    match holds(alloc, finder, rules, binding, condition) {
        Ok(yes) => Ok(yes),
        Err(fault) => Err(told_fault(fault, found.span)),
    }
}

/// Puts the keys that are met in the alternative behind the others, where its condition holds.
fn note_side<F: Finder>(
    alloc: Global,
    finder: &F,
    rules: &Rules<'_>,
    rule: &EnabledRule<'_>,
    args: &[ClosedSymbol],
    choice: &Choice<'_>,
    met: &mut List<MetKey>,
) -> Result<(), NormFault>
    requires table { IsTable rules.now }
    requires kept { IsKept rules.now.features.now rule.now }
    requires tighter { choice.now.tighter ≡ tighter_in
        (levels (enabled_rule_view rules.now.features.now rule.now)) (option_map rank_view choice.now.rank) }
    ensures added { OnOk result (PutsMet (rules_with (F.finds finder.now) rules.now)
        (enabled_rule_view rules.now.features.now rule.now) (binding_of rule.now.written.now.args args.now)
        (choice_of (Origin.start, alternative_view choice.now.alternative.now), option_map rank_view choice.now.rank)
        (map met_view met.old) (map met_view met.new)) }
    ensures fault { IfErr result (TellsOfAlternative (F.finds finder.now) (F.too_deep finder.now)
        (binding_of rule.now.written.now.args args.now)
        (option_map condition_view choice.now.alternative.now.condition)) }
{
    let binding = Binding {
        parameters: rule.written.args.as_slice(),
        args,
    };
    if !is_held(alloc, finder, rules, binding, &choice.alternative.condition)? {
        return Ok(());
    }
    let side = right_side(alloc, rules, rule, choice, args)?;
    note_keys_met(
        alloc,
        choice.alternative.expr.as_slice(),
        side.as_slice(),
        met,
    )?;
    Ok(())
}

/// Puts the keys that are met in the alternative behind the others, where it is enabled and its condition holds.
fn note_choice<F: Finder>(
    alloc: Global,
    finder: &F,
    rules: &Rules<'_>,
    rule: &EnabledRule<'_>,
    args: &[ClosedSymbol],
    choice: &Option<Choice<'_>>,
    met: &mut List<MetKey>,
) -> Result<(), NormFault>
    requires table { IsTable rules.now }
    requires kept { IsKept rules.now.features.now rule.now }
    requires tight { AreTight (levels (enabled_rule_view rules.now.features.now rule.now))
        (choices_view rule.now.written.now.name.0 0 (choice.now ∷ [])) }
    ensures added { OnOk result (PutsMetInChoices (rules_with (F.finds finder.now) rules.now)
        (enabled_rule_view rules.now.features.now rule.now) (binding_of rule.now.written.now.args args.now)
        (kept_from rule.now.written.now.name.0 0 (choice.now ∷ []))
        (map met_view met.old) (map met_view met.new)) }
    ensures fault { IfErr result (TellsOfSome (F.finds finder.now) (F.too_deep finder.now)
        (binding_of rule.now.written.now.args args.now) (kept_from rule.now.written.now.name.0 0 (choice.now ∷ []))) }
{
    match choice {
        Some(choice) => note_side(alloc, finder, rules, rule, args, choice, met),
        None => Ok(()),
    }
}

/// Puts the keys that are met in the rule's alternatives behind the others, in order, of those whose conditions hold for the
/// arguments.
fn note_rule<F: Finder>(
    alloc: Global,
    finder: &F,
    rules: &Rules<'_>,
    rule: &EnabledRule<'_>,
    args: &[ClosedSymbol],
    met: &mut List<MetKey>,
) -> Result<(), NormFault>
    requires table { IsTable rules.now }
    requires kept { IsKept rules.now.features.now rule.now }
    ensures added { OnOk result (PutsMetInChoices (rules_with (F.finds finder.now) rules.now)
        (enabled_rule_view rules.now.features.now rule.now) (binding_of rule.now.written.now.args args.now)
        (ranked_choices (enabled_rule_view rules.now.features.now rule.now)) (map met_view met.old) (map met_view met.new)) }
    ensures fault { IfErr result (TellsOfSome (F.finds finder.now) (F.too_deep finder.now)
        (binding_of rule.now.written.now.args args.now)
        (ranked_choices (enabled_rule_view rules.now.features.now rule.now))) }
{
    let choices = rule.choices.as_slice();
    for choice in choices {
        note_choice(alloc, finder, rules, rule, args, choice, met)?;
    }
    Ok(())
}

/// Puts the keys that are met in the call behind the others, where it calls a rule. In one at a level nothing is met.
fn note_call<F: Finder>(
    alloc: Global,
    finder: &F,
    rules: &Rules<'_>,
    call: &ClosedSymbol,
    met: &mut List<MetKey>,
) -> Result<(), NormFault>
    requires table { IsTable rules.now }
    ensures added { OnOk result (PutsMetInCall (rules_with (F.finds finder.now) rules.now) (closed_view call.now)
        (map met_view met.old) (map met_view met.new)) }
    ensures fault { IfErr result (TellsOfOneCall (rules_with (F.finds finder.now) rules.now) (F.too_deep finder.now)
        (closed_view call.now ∷ [])) }
{
    let Some(called) = unleveled_call(call) else {
        return Ok(());
    };
    let Some(rule) = rules.find(called.name) else {
        return Ok(());
    };
    if rule.written.args.len() != called.args.len() {
        return Ok(());
    }
    note_rule(alloc, finder, rules, rule, called.args, met)
}

/// Puts the keys that are met in the calls behind the others, in order.
///
/// # Errors
///
/// A condition can't be asked, or memory runs out.
pub(crate) fn note_calls<F: Finder>(
    alloc: Global,
    finder: &F,
    rules: &Rules<'_>,
    calls: &[ClosedSymbol],
    met: &mut List<MetKey>,
) -> Result<(), NormFault>
    requires table { IsTable rules.now }
    ensures added { OnOk result (PutsMetInCalls (rules_with (F.finds finder.now) rules.now) (map closed_view calls.now)
        (map met_view met.old) (map met_view met.new)) }
    ensures fault { IfErr result (TellsOfOneCall (rules_with (F.finds finder.now) rules.now) (F.too_deep finder.now)
        (map closed_view calls.now)) }
{
    for call in calls {
        note_call(alloc, finder, rules, call, met)?;
    }
    Ok(())
}
